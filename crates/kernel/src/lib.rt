// Loops over the elements of a stretch that the compiler makes vector code of: seven operations, without a mask. There is one loop for each
// operation and size of an element; the second operand's source stays the same in it, so the compiler asks for that before the loop.
// Registers and VLENB are no struct: tried, contracts are 18 % longer, as each that writes must say that the file is still the one lent.

#![tactic(auto)]

ghost use Rattle.std.specs.Prelude.{◌≡◌, List, ℕ, ◌-◌, ◌^◌, ◌<◌, length, T};
ghost use Rattle.fixed.specs.Round.{exact};
ghost use Rattle.fixed.specs.declared.Vxrm.TheVariants.{Rnu};
ghost use Rattle.operation.specs.declared.Op.{Op};
ghost use Rattle.operation.specs.declared.Op.TheVariants.{Vadd, Vsub, Vand, Vor, Vxor, Vmul, Vmacc};
ghost use Rattle.alu.specs.Element.{element_of};
ghost use Rattle.control.specs.declared.Control.{Control};
ghost use Rattle.layout.specs.Layout.{byte_size};
ghost use Rattle.execute.specs.Step.{core_at, Attempted};
ghost use Rattle.kernel.specs.declared.Kernelled.{Kernelled};
ghost use Rattle.kernel.specs.Kernel.{operation_at, start_of, source_of, SourceInside, second_at, Swept, Placed, Computable};

use control::Board;
use operation::Op;
use plan::{Compute, Elementwise, Read};
use width::Eew;

// The second operand: a scalar, or the elements from an index of the register file on.
#[derive(Clone, Copy)]
enum Source {
    Scalar(u64),
    Elements(usize),
}

// A stretch of the elements from `from` to `end`, and where in the register file element 0 of each operand lies.
#[derive(Clone, Copy)]
struct Stretch {
    vd: usize,
    vs2: usize,
    vs1: Source,
    from: usize,
    end: usize,
}

// ---- the operations

// No one list serves all: nothing loops over types, the gate refuses an `impl` that a macro writes, and against one match see `kernel_of`.

// Those that have a kernel.
#[derive(Clone, Copy)]
enum Kernelled {
    Add,
    Sub,
    And,
    Or,
    Xor,
    Mul,
    Macc,
}

// One of them, as a type: a loop is compiled for each.
trait Operation {
    ghost op: { Op };

    // What it gives of an element a of vs2, b of vs1 and d of vd.
    fn apply(sew: Eew, a: u64, b: u64, d: u64) -> u64
        ensures { exact result ≡ element_of sew.bits Rnu a b d 0 op };
}

struct Add;

struct Sub;

struct And;

struct Or;

struct Xor;

struct Mul;

struct Macc;

impl Operation for Add {
    ghost op = { Vadd };

    fn apply(sew: Eew, a: u64, b: u64, _d: u64) -> u64 {
        integer::add(sew, a, b)
    }
}

impl Operation for Sub {
    ghost op = { Vsub };

    fn apply(sew: Eew, a: u64, b: u64, _d: u64) -> u64 {
        integer::sub(sew, a, b)
    }
}

impl Operation for And {
    ghost op = { Vand };

    fn apply(sew: Eew, a: u64, b: u64, _d: u64) -> u64 {
        integer::and(sew.bits, a, b)
    }
}

impl Operation for Or {
    ghost op = { Vor };

    fn apply(sew: Eew, a: u64, b: u64, _d: u64) -> u64 {
        integer::or(sew.bits, a, b)
    }
}

impl Operation for Xor {
    ghost op = { Vxor };

    fn apply(sew: Eew, a: u64, b: u64, _d: u64) -> u64 {
        integer::xor(sew.bits, a, b)
    }
}

impl Operation for Mul {
    ghost op = { Vmul };

    fn apply(sew: Eew, a: u64, b: u64, _d: u64) -> u64 {
        multiply::mul(sew, a, b)
    }
}

impl Operation for Macc {
    ghost op = { Vmacc };

    fn apply(sew: Eew, a: u64, b: u64, d: u64) -> u64 {
        multiply::macc(sew, a, b, d)
    }
}

// ---- the loop

// The element of the second operand at so many bytes from its first, or the scalar in its place.
fn second(registers: &[u8], source: Source, n: usize, at: usize) -> u64
    requires { T (byte_size n) × SourceInside (length registers.now) source n at }
    ensures { result ≡ second_at registers.now source n at }
{
    match source {
        Source::Scalar(x) => x,
        Source::Elements(vs1) => layout::read_bytes(registers, vs1 + at, n),
    }
}

// The elements of a stretch, of N bytes each, one after the other in place.
fn kernel<O: Operation, const N: usize>(registers: &mut [u8], s: Stretch)
    requires { Placed (length registers.old) s N }
    ensures { Swept s O.op N (s.end - s.from) registers.old registers.new }
{
    let vd = s.vd;
    let vs2 = s.vs2;
    let vs1 = s.vs1;
    let sew = Eew {
        bits: 8 * (N as u64),
    };
    for i in s.from..s.end {
        let at = i * N;
        let a = layout::read_bytes(registers, vs2 + at, N);
        let b = second(registers, vs1, N, at);
        let d = layout::read_bytes(registers, vd + at, N);
        let r = O::apply(sew, a, b, d);
        layout::write_bytes(registers, vd + at, N, r);
    }
}

// The elements of a stretch, of n bytes each.
fn by_size<O: Operation>(registers: &mut [u8], s: Stretch, n: usize)
    requires { Placed (length registers.old) s n }
    ensures { Swept s O.op n (s.end - s.from) registers.old registers.new }
{
    match n {
        1 => kernel::<O, 1>(registers, s),
        2 => kernel::<O, 2>(registers, s),
        4 => kernel::<O, 4>(registers, s),
        _ => kernel::<O, 8>(registers, s),
    }
}

// The elements of a stretch, of n bytes each, by the operation that o names.
fn by_operation(registers: &mut [u8], s: Stretch, o: Kernelled, n: usize)
    requires { Placed (length registers.old) s n }
    ensures { Swept s (operation_at o) n (s.end - s.from) registers.old registers.new }
{
    match o {
        Kernelled::Add => by_size::<Add>(registers, s, n),
        Kernelled::Sub => by_size::<Sub>(registers, s, n),
        Kernelled::And => by_size::<And>(registers, s, n),
        Kernelled::Or => by_size::<Or>(registers, s, n),
        Kernelled::Xor => by_size::<Xor>(registers, s, n),
        Kernelled::Mul => by_size::<Mul>(registers, s, n),
        Kernelled::Macc => by_size::<Macc>(registers, s, n),
    }
}

// ---- a plan

// The kernel of an operation. `by_operation` does not match on the operation itself: of so many arms each would count as rare to the
// compiler, and it puts no function in place of a call that is rare.
fn kernel_of(op: Op) -> Option<Kernelled>
    ensures { (o : Kernelled) → result ≡ Some o → op ≡ operation_at o }
{
    match op {
        Op::Vadd => Some(Kernelled::Add),
        Op::Vsub => Some(Kernelled::Sub),
        Op::Vand => Some(Kernelled::And),
        Op::Vor => Some(Kernelled::Or),
        Op::Vxor => Some(Kernelled::Xor),
        Op::Vmul => Some(Kernelled::Mul),
        Op::Vmacc => Some(Kernelled::Macc),
        _ => None,
    }
}

// Where in the register file the elements of an operand begin.
fn start_of(read: Read, vlenb: usize) -> usize
    requires { start_of vlenb read < 2 ^ 64 }
    ensures { result ≡ start_of vlenb read }
{
    match read {
        Read::Constant(_) => 0,
        Read::Element(g) => vlenb * g.reg,
        Read::Bit(reg) => vlenb * reg,
    }
}

fn source_of(read: Read, vlenb: usize) -> Source
    requires { start_of vlenb read < 2 ^ 64 }
    ensures { result ≡ source_of vlenb read }
{
    match read {
        Read::Constant(x) => Source::Scalar(x),
        Read::Element(_) | Read::Bit(_) => Source::Elements(start_of(read, vlenb)),
    }
}

// The elements from `from` to `end` of a plan that computes, where there is a kernel for it: whether there is.
// A bool and no Option or enum: no value stands beside it, and whatever the reason that it is false, the caller goes element by element.
pub fn computed(
    registers: &mut [u8],
    board: Board,
    e: Elementwise,
    k: Compute,
    from: usize,
    end: usize,
) -> bool
    requires { Computable (length registers.old) board.vlenb e k from end }
    ensures { (rights memory x : List ℕ) (c : Control) → Attempted board rights e from (end - from)
        (core_at registers.old memory x c) result (core_at registers.new memory x c) }
{
    if e.masked || end <= from {
        return false;
    }
    let Some(o) = kernel_of(k.op) else {
        return false;
    };
    let vlenb = board.vlenb as usize;
    let dest = e.dest;
    let s = Stretch {
        vd: vlenb * dest.reg,
        vs2: start_of(e.vs2, vlenb),
        vs1: source_of(e.vs1, vlenb),
        from,
        end,
    };
    by_operation(registers, s, o, (k.sew / 8) as usize);
    true
}
