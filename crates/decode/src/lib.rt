// Decode of every 32-bit word: the listing of section 20 of document 000, the setting forms of section 7 and the memory encodings of
// section 8. What a word names is here; whether it is legal at a vtype is not.

#![tactic(auto)]

ghost use Rattle.std.specs.Prelude.{◌≡◌, cond, eqb, Some, None};
ghost use Rattle.decode.specs.declared.Entry.TheVariants.{MergeOrMove};
ghost use Rattle.decode.specs.declared.Instruction.TheVariants as Ins;
ghost use Rattle.decode.specs.Fields.{accessing, sized};
ghost use Rattle.decode.specs.Listing.{vxunary0, vwxunary0, vmunary0, find, entry_of};
ghost use Rattle.decode.specs.Word.{opcode, rd, funct3, rs1, rs2, vm, funct6, mop, mew, nf, masked};
ghost use Rattle.decode.specs.Word.{vm_fits, source_of, resolved_of, operation_of, named_of, arithmetic_of};
ghost use Rattle.decode.specs.Word.{vs2_fits, permutation_of, pack_vm_fits, pack_of, scalar_move_of, avl_of, setting_by, setting_of};
ghost use Rattle.decode.specs.Word.{width_of, access, segment_of, mask_of, whole_count, whole_of, unit_of, memory_of, decode_of};

use operation::{Op, V0};

// What the vs1 field is, where an operation has a second source: a vector register, a scalar register, or a 5-bit immediate.
#[derive(Clone, Copy)]
pub enum Source {
    Vector(usize),
    Scalar(usize),
    Immediate(u64),
}

#[derive(Clone, Copy)]
pub struct Arithmetic {
    pub op: Op,
    pub vd: usize,
    pub vs2: usize,
    pub source: Source,
    // vm is 0
    pub masked: bool,
}

// Instructions on a mask that take one turn (sections 16.2 to 16.6).
#[derive(Clone, Copy)]
pub enum MaskOp {
    Vcpop,
    Vfirst,
    Vmsbf,
    Vmsof,
    Vmsif,
}

#[derive(Clone, Copy)]
pub struct MaskInstruction {
    pub op: MaskOp,
    // rd of vcpop and vfirst, vd of the others
    pub rd: usize,
    pub vs2: usize,
    pub masked: bool,
}

// Reductions (sections 15.1 and 15.2).
#[derive(Clone, Copy)]
pub enum ReductionOp {
    Vredsum,
    Vredand,
    Vredor,
    Vredxor,
    Vredminu,
    Vredmin,
    Vredmaxu,
    Vredmax,
    Vwredsumu,
    Vwredsum,
}

#[derive(Clone, Copy)]
pub struct ReductionInstruction {
    pub op: ReductionOp,
    pub vd: usize,
    pub vs2: usize,
    pub vs1: usize,
    pub masked: bool,
}

// Permutations that go element by element (sections 16.9, 17.3 and 17.4).
#[derive(Clone, Copy)]
pub enum PermutationOp {
    Vid,
    Vslideup,
    Vslidedown,
    Vslide1up,
    Vslide1down,
    Vrgather,
    Vrgatherei16,
}

#[derive(Clone, Copy)]
pub struct PermutationInstruction {
    pub op: PermutationOp,
    pub vd: usize,
    pub vs2: usize,
    pub source: Source,
    pub masked: bool,
}

// Those that count the set bits of a mask and take one turn (sections 16.8 and 17.5).
#[derive(Clone, Copy)]
pub enum PackOp {
    Viota,
    Vcompress,
}

#[derive(Clone, Copy)]
pub struct PackInstruction {
    pub op: PackOp,
    pub vd: usize,
    pub vs2: usize,
    pub vs1: usize,
    pub masked: bool,
}

// Integer scalar moves (section 17.1): vmv.x.s and vmv.s.x.
#[derive(Clone, Copy)]
pub enum ScalarMoveOp {
    VmvXS,
    VmvSX,
}

#[derive(Clone, Copy)]
pub struct ScalarMoveInstruction {
    pub op: ScalarMoveOp,
    // vs2 of vmv.x.s, vd of vmv.s.x
    pub vector: usize,
    // rd of vmv.x.s, rs1 of vmv.s.x
    pub scalar: usize,
}

// Where AVL comes from (section 7.2).
#[derive(Clone, Copy)]
pub enum AvlSource {
    Register(usize),
    Number(u64),
    // 2^64 - 1
    Largest,
    // vl is kept
    Kept,
}

// Where the new vtype comes from.
#[derive(Clone, Copy)]
pub enum TypeSource {
    Given(u64),
    InRegister(usize),
}

#[derive(Clone, Copy)]
pub struct Setting {
    pub rd: usize,
    pub avl: AvlSource,
    pub vtype: TypeSource,
}

// Addressing modes (section 8.2): the register of the stride or of the offsets, or how many whole registers.
#[derive(Clone, Copy)]
pub enum Mode {
    UnitStride,
    Strided(usize),
    Indexed(usize),
    MaskBytes,
    Whole(usize),
}

#[derive(Clone, Copy)]
pub struct Access {
    pub store: bool,
    pub mode: Mode,
    // the encoded EEW in bits
    pub eew: u64,
    // vs3 of a store
    pub vd: usize,
    pub rs1: usize,
    pub masked: bool,
    // one less than the number of fields of a segment (section 8.8); 0 for all that is no segment access
    pub nf: u32,
}

// What a word names. A word that names nothing is one kind among nine, as `decode_of` has it, and no Option around the others.
#[derive(Clone, Copy)]
pub enum Instruction {
    Illegal,
    Arithmetic(Arithmetic),
    Mask(MaskInstruction),
    Reduction(ReductionInstruction),
    Permutation(PermutationInstruction),
    Pack(PackInstruction),
    ScalarMove(ScalarMoveInstruction),
    Setting(Setting),
    Memory(Access),
}

// What stands in the listing under a number. `Reserved` is one kind among twelve and no Option around eleven, as definition `find` has it.
#[derive(Clone, Copy)]
pub enum Entry {
    Reserved,
    Operation(Op),
    OnMask(MaskOp),
    Reduces(ReductionOp),
    Permutes(PermutationOp),
    Packs(PackOp),
    MovesScalar(ScalarMoveOp),
    // vmerge, or vmv with vm 1
    MergeOrMove,
    // further tables, by the vs1 field
    Vxunary0,
    Vwxunary0,
    Vmunary0,
    // a setting instruction, whatever funct6 is
    Setting,
}

// ---- the fields of a word

fn opcode(word: u32) -> u32
    ensures { result ≡ opcode word }
{
    word % 0x80
}

// rd, or vd, or vs3
fn rd(word: u32) -> u32
    ensures { result ≡ rd word }
{
    word / 0x80 % 32
}

// funct3, or width
fn funct3(word: u32) -> u32
    ensures { result ≡ funct3 word }
{
    word / 0x1000 % 8
}

// rs1, or vs1, or a 5-bit immediate
fn rs1(word: u32) -> u32
    ensures { result ≡ rs1 word }
{
    word / 0x8000 % 32
}

// rs2, or vs2, or lumop and sumop
fn rs2(word: u32) -> u32
    ensures { result ≡ rs2 word }
{
    word / 0x10_0000 % 32
}

// 0 where v0 masks
fn vm(word: u32) -> u32
    ensures { result ≡ vm word }
{
    word / 0x200_0000 % 2
}

fn funct6(word: u32) -> u32
    ensures { result ≡ funct6 word }
{
    word / 0x400_0000 % 64
}

// unit-stride, strided or indexed
fn mop(word: u32) -> u32
    ensures { result ≡ mop word }
{
    word / 0x400_0000 % 4
}

fn mew(word: u32) -> u32
    ensures { result ≡ mew word }
{
    word / 0x1000_0000 % 2
}

// one less than the number of fields
fn nf(word: u32) -> u32
    ensures { result ≡ nf word }
{
    word / 0x2000_0000 % 8
}

fn masked(word: u32) -> bool
    ensures { result ≡ masked word }
{
    vm(word) == 0
}

// ---- the listing: a column for each funct3

// OPIVX: the whole of the OPI columns.
#[tactic(auto, unfolding(crate::specs::Listing::listing, crate::specs::Listing::find, crate::specs::Listing::entry_of))]
fn opivx(funct6: u32) -> Entry
    ensures { result ≡ entry_of 0b100 funct6 }
{
    match funct6 {
        0b000000 => Entry::Operation(Op::Vadd),
        0b000010 => Entry::Operation(Op::Vsub),
        0b000011 => Entry::Operation(Op::Vrsub),
        0b000100 => Entry::Operation(Op::Vminu),
        0b000101 => Entry::Operation(Op::Vmin),
        0b000110 => Entry::Operation(Op::Vmaxu),
        0b000111 => Entry::Operation(Op::Vmax),
        0b001001 => Entry::Operation(Op::Vand),
        0b001010 => Entry::Operation(Op::Vor),
        0b001011 => Entry::Operation(Op::Vxor),
        0b001100 => Entry::Permutes(PermutationOp::Vrgather),
        0b001110 => Entry::Permutes(PermutationOp::Vslideup),
        0b001111 => Entry::Permutes(PermutationOp::Vslidedown),
        0b010000 => Entry::Operation(Op::Vadc),
        0b010001 => Entry::Operation(Op::Vmadc),
        0b010010 => Entry::Operation(Op::Vsbc),
        0b010011 => Entry::Operation(Op::Vmsbc),
        0b010111 => Entry::MergeOrMove,
        0b011000 => Entry::Operation(Op::Vmseq),
        0b011001 => Entry::Operation(Op::Vmsne),
        0b011010 => Entry::Operation(Op::Vmsltu),
        0b011011 => Entry::Operation(Op::Vmslt),
        0b011100 => Entry::Operation(Op::Vmsleu),
        0b011101 => Entry::Operation(Op::Vmsle),
        0b011110 => Entry::Operation(Op::Vmsgtu),
        0b011111 => Entry::Operation(Op::Vmsgt),
        0b100000 => Entry::Operation(Op::Vsaddu),
        0b100001 => Entry::Operation(Op::Vsadd),
        0b100010 => Entry::Operation(Op::Vssubu),
        0b100011 => Entry::Operation(Op::Vssub),
        0b100101 => Entry::Operation(Op::Vsll),
        0b100111 => Entry::Operation(Op::Vsmul),
        0b101000 => Entry::Operation(Op::Vsrl),
        0b101001 => Entry::Operation(Op::Vsra),
        0b101010 => Entry::Operation(Op::Vssrl),
        0b101011 => Entry::Operation(Op::Vssra),
        0b101100 => Entry::Operation(Op::Vnsrl),
        0b101101 => Entry::Operation(Op::Vnsra),
        0b101110 => Entry::Operation(Op::Vnclipu),
        0b101111 => Entry::Operation(Op::Vnclip),
        _ => Entry::Reserved,
    }
}

#[tactic(auto, unfolding(crate::specs::Listing::listing, crate::specs::Listing::find, crate::specs::Listing::entry_of))]
fn opmvv(funct6: u32) -> Entry
    ensures { result ≡ entry_of 0b010 funct6 }
{
    match funct6 {
        0b000000 => Entry::Reduces(ReductionOp::Vredsum),
        0b000001 => Entry::Reduces(ReductionOp::Vredand),
        0b000010 => Entry::Reduces(ReductionOp::Vredor),
        0b000011 => Entry::Reduces(ReductionOp::Vredxor),
        0b000100 => Entry::Reduces(ReductionOp::Vredminu),
        0b000101 => Entry::Reduces(ReductionOp::Vredmin),
        0b000110 => Entry::Reduces(ReductionOp::Vredmaxu),
        0b000111 => Entry::Reduces(ReductionOp::Vredmax),
        0b001000 => Entry::Operation(Op::Vaaddu),
        0b001001 => Entry::Operation(Op::Vaadd),
        0b001010 => Entry::Operation(Op::Vasubu),
        0b001011 => Entry::Operation(Op::Vasub),
        0b010000 => Entry::Vwxunary0,
        0b010010 => Entry::Vxunary0,
        0b010100 => Entry::Vmunary0,
        0b010111 => Entry::Packs(PackOp::Vcompress),
        0b011000 => Entry::Operation(Op::Vmandn),
        0b011001 => Entry::Operation(Op::Vmand),
        0b011010 => Entry::Operation(Op::Vmor),
        0b011011 => Entry::Operation(Op::Vmxor),
        0b011100 => Entry::Operation(Op::Vmorn),
        0b011101 => Entry::Operation(Op::Vmnand),
        0b011110 => Entry::Operation(Op::Vmnor),
        0b011111 => Entry::Operation(Op::Vmxnor),
        0b100000 => Entry::Operation(Op::Vdivu),
        0b100001 => Entry::Operation(Op::Vdiv),
        0b100010 => Entry::Operation(Op::Vremu),
        0b100011 => Entry::Operation(Op::Vrem),
        0b100100 => Entry::Operation(Op::Vmulhu),
        0b100101 => Entry::Operation(Op::Vmul),
        0b100110 => Entry::Operation(Op::Vmulhsu),
        0b100111 => Entry::Operation(Op::Vmulh),
        0b101001 => Entry::Operation(Op::Vmadd),
        0b101011 => Entry::Operation(Op::Vnmsub),
        0b101101 => Entry::Operation(Op::Vmacc),
        0b101111 => Entry::Operation(Op::Vnmsac),
        0b110000 => Entry::Operation(Op::Vwaddu),
        0b110001 => Entry::Operation(Op::Vwadd),
        0b110010 => Entry::Operation(Op::Vwsubu),
        0b110011 => Entry::Operation(Op::Vwsub),
        0b110100 => Entry::Operation(Op::VwadduW),
        0b110101 => Entry::Operation(Op::VwaddW),
        0b110110 => Entry::Operation(Op::VwsubuW),
        0b110111 => Entry::Operation(Op::VwsubW),
        0b111000 => Entry::Operation(Op::Vwmulu),
        0b111010 => Entry::Operation(Op::Vwmulsu),
        0b111011 => Entry::Operation(Op::Vwmul),
        0b111100 => Entry::Operation(Op::Vwmaccu),
        0b111101 => Entry::Operation(Op::Vwmacc),
        0b111111 => Entry::Operation(Op::Vwmaccsu),
        _ => Entry::Reserved,
    }
}

// OPIVV and OPIVI are OPIVX less some rows; OPIVV has three of its own.
#[tactic(auto, unfolding(crate::specs::Listing::listing, crate::specs::Listing::find, crate::specs::Listing::entry_of))]
fn opivv(funct6: u32) -> Entry
    ensures { result ≡ entry_of 0b000 funct6 }
{
    match funct6 {
        0b000011 | 0b001111 | 0b011110..=0b011111 => Entry::Reserved,
        0b001110 => Entry::Permutes(PermutationOp::Vrgatherei16),
        0b110000 => Entry::Reduces(ReductionOp::Vwredsumu),
        0b110001 => Entry::Reduces(ReductionOp::Vwredsum),
        _ => opivx(funct6),
    }
}

#[tactic(auto, unfolding(crate::specs::Listing::listing, crate::specs::Listing::find, crate::specs::Listing::entry_of))]
fn opivi(funct6: u32) -> Entry
    ensures { result ≡ entry_of 0b011 funct6 }
{
    match funct6 {
        0b000010
        | 0b000100..=0b000111
        | 0b010010..=0b010011
        | 0b011010..=0b011011
        | 0b100010..=0b100011
        | 0b100111 => Entry::Reserved,
        _ => opivx(funct6),
    }
}

// OPMVX is OPMVV less the rows that have no scalar, and with four of its own.
#[tactic(auto, unfolding(crate::specs::Listing::listing, crate::specs::Listing::find, crate::specs::Listing::entry_of))]
fn opmvx(funct6: u32) -> Entry
    ensures { result ≡ entry_of 0b110 funct6 }
{
    match funct6 {
        0b000000..=0b000111 | 0b010010 | 0b010100 | 0b010111..=0b011111 => Entry::Reserved,
        0b001110 => Entry::Permutes(PermutationOp::Vslide1up),
        0b001111 => Entry::Permutes(PermutationOp::Vslide1down),
        0b010000 => Entry::MovesScalar(ScalarMoveOp::VmvSX),
        0b111110 => Entry::Operation(Op::Vwmaccus),
        _ => opmvv(funct6),
    }
}

// What funct3 and funct6 name (section 11.1).
#[tactic(auto, unfolding(crate::specs::Listing::listing, crate::specs::Listing::find, crate::specs::Listing::entry_of))]
fn entry_of(funct3: u32, funct6: u32) -> Entry
    ensures { result ≡ entry_of funct3 funct6 }
{
    match funct3 {
        0b000 => opivv(funct6),
        0b010 => opmvv(funct6),
        0b011 => opivi(funct6),
        0b100 => opivx(funct6),
        0b110 => opmvx(funct6),
        0b111 => Entry::Setting,
        _ => Entry::Reserved,
    }
}

// The tables below the listing, by the vs1 field: VXUNARY0, VWXUNARY0, VMUNARY0.
#[tactic(auto, unfolding(crate::specs::Listing::vxunary0, crate::specs::Listing::find))]
fn extension(vs1: u32) -> Entry
    ensures { result ≡ find vxunary0 vs1 }
{
    match vs1 {
        0b00010 => Entry::Operation(Op::VzextVf8),
        0b00011 => Entry::Operation(Op::VsextVf8),
        0b00100 => Entry::Operation(Op::VzextVf4),
        0b00101 => Entry::Operation(Op::VsextVf4),
        0b00110 => Entry::Operation(Op::VzextVf2),
        0b00111 => Entry::Operation(Op::VsextVf2),
        _ => Entry::Reserved,
    }
}

#[tactic(auto, unfolding(crate::specs::Listing::vwxunary0, crate::specs::Listing::find))]
fn to_scalar(vs1: u32) -> Entry
    ensures { result ≡ find vwxunary0 vs1 }
{
    match vs1 {
        0b00000 => Entry::MovesScalar(ScalarMoveOp::VmvXS),
        0b10000 => Entry::OnMask(MaskOp::Vcpop),
        0b10001 => Entry::OnMask(MaskOp::Vfirst),
        _ => Entry::Reserved,
    }
}

#[tactic(auto, unfolding(crate::specs::Listing::vmunary0, crate::specs::Listing::find))]
fn on_mask(vs1: u32) -> Entry
    ensures { result ≡ find vmunary0 vs1 }
{
    match vs1 {
        0b00001 => Entry::OnMask(MaskOp::Vmsbf),
        0b00010 => Entry::OnMask(MaskOp::Vmsof),
        0b00011 => Entry::OnMask(MaskOp::Vmsif),
        0b10000 => Entry::Packs(PackOp::Viota),
        0b10001 => Entry::Permutes(PermutationOp::Vid),
        _ => Entry::Reserved,
    }
}

// ---- arithmetic

// vmerge has vm 0; vmv has vm 1 and vs2 0 (section 12.16).
#[tactic(auto, unfolding(crate::specs::Word::resolved_of))]
fn merge_or_move(word: u32) -> Entry
    ensures { result ≡ resolved_of MergeOrMove word }
{
    if masked(word) {
        return Entry::Operation(Op::Vmerge);
    }
    if rs2(word) == 0 {
        return Entry::Operation(Op::Vmv);
    }
    Entry::Reserved
}

// The entries that further fields decide.
#[tactic(auto, unfolding(crate::specs::Word::resolved_of))]
fn resolved(entry: Entry, word: u32) -> Entry
    ensures { result ≡ resolved_of entry word }
{
    match entry {
        Entry::MergeOrMove => merge_or_move(word),
        Entry::Vxunary0 => extension(rs1(word)),
        Entry::Vwxunary0 => to_scalar(rs1(word)),
        Entry::Vmunary0 => on_mask(rs1(word)),
        Entry::Reserved
        | Entry::Operation(_)
        | Entry::OnMask(_)
        | Entry::Reduces(_)
        | Entry::Permutes(_)
        | Entry::Packs(_)
        | Entry::MovesScalar(_)
        | Entry::Setting => entry,
    }
}

// What the vs1 field is, by funct3.
#[tactic(auto, unfolding(crate::specs::Word::source_of))]
fn source_of(word: u32) -> Source
    ensures { result ≡ source_of word }
{
    let field = rs1(word);
    match funct3(word) {
        0b011 => Source::Immediate(field as u64),
        0b100 | 0b110 => Source::Scalar(field as usize),
        _ => Source::Vector(field as usize),
    }
}

// The vm bits that an operation has.
fn vm_fits(v0: V0, vm: u32) -> bool
    ensures { result ≡ vm_fits v0 vm }
{
    match v0 {
        V0::Masks | V0::MaybeOperand => true,
        V0::Operand => vm == 0,
        V0::Unused => vm == 1,
    }
}

fn operation_of(op: Op, word: u32) -> Instruction
    ensures { result ≡ operation_of op word }
{
    let vm = vm(word);
    if vm_fits(operation::shape_of(op).v0, vm) {
        return Instruction::Arithmetic(Arithmetic {
            op,
            vd: rd(word) as usize,
            vs2: rs2(word) as usize,
            source: source_of(word),
            masked: vm == 0,
        });
    }
    Instruction::Illegal
}

// ---- permutations

// The vs2 fields that a permutation has: that of vid.v is 0.
fn vs2_fits(op: PermutationOp, vs2: u32) -> bool
    ensures { result ≡ vs2_fits op vs2 }
{
    match op {
        PermutationOp::Vid => vs2 == 0,
        PermutationOp::Vslideup
        | PermutationOp::Vslidedown
        | PermutationOp::Vslide1up
        | PermutationOp::Vslide1down
        | PermutationOp::Vrgather
        | PermutationOp::Vrgatherei16 => true,
    }
}

fn permutation_of(op: PermutationOp, word: u32) -> Instruction
    ensures { result ≡ permutation_of op word }
{
    let vs2 = rs2(word);
    if vs2_fits(op, vs2) {
        return Instruction::Permutation(PermutationInstruction {
            op,
            vd: rd(word) as usize,
            vs2: vs2 as usize,
            source: source_of(word),
            masked: masked(word),
        });
    }
    Instruction::Illegal
}

// The vm bits of viota.m, and of vcompress.vm, which is never masked.
fn pack_vm_fits(op: PackOp, vm: u32) -> bool
    ensures { result ≡ pack_vm_fits op vm }
{
    match op {
        PackOp::Viota => true,
        PackOp::Vcompress => vm == 1,
    }
}

fn pack_of(op: PackOp, word: u32) -> Instruction
    ensures { result ≡ pack_of op word }
{
    let vm = vm(word);
    if pack_vm_fits(op, vm) {
        return Instruction::Pack(PackInstruction {
            op,
            vd: rd(word) as usize,
            vs2: rs2(word) as usize,
            vs1: rs1(word) as usize,
            masked: vm == 0,
        });
    }
    Instruction::Illegal
}

// The same literal for both moves.
fn move_by(op: ScalarMoveOp, vector: u32, scalar: u32) -> Instruction
    ensures { result ≡ Ins.ScalarMove (record { op = op; vector = vector; scalar = scalar }) }
{
    Instruction::ScalarMove(ScalarMoveInstruction {
        op,
        vector: vector as usize,
        scalar: scalar as usize,
    })
}

// Unmasked; vs2 of vmv.s.x is 0. (vs1 of vmv.x.s is 0 by the table that names it.)
fn scalar_move_of(op: ScalarMoveOp, word: u32) -> Instruction
    ensures { result ≡ scalar_move_of op word }
{
    if masked(word) {
        return Instruction::Illegal;
    }
    let vs2 = rs2(word);
    match op {
        ScalarMoveOp::VmvXS => move_by(op, vs2, rd(word)),
        ScalarMoveOp::VmvSX => {
            if vs2 != 0 {
                return Instruction::Illegal;
            }
            move_by(op, rd(word), rs1(word))
        }
    }
}

// ---- setting instructions

// Section 7.2.
#[tactic(auto, unfolding(crate::specs::Word::avl_of))]
fn avl_of(word: u32) -> AvlSource
    ensures { result ≡ avl_of word }
{
    let rs1 = rs1(word) as usize;
    if rs1 == 0 {
        if rd(word) == 0 {
            return AvlSource::Kept;
        }
        return AvlSource::Largest;
    }
    AvlSource::Register(rs1)
}

fn setting_by(word: u32, avl: AvlSource, vtype: TypeSource) -> Instruction
    ensures { result ≡ setting_by word avl vtype }
{
    Instruction::Setting(Setting {
        rd: rd(word) as usize,
        avl,
        vtype,
    })
}

// vsetvli has bit 31 clear, vsetivli bits 31 and 30 set, vsetvl bits 31 to 25 1000000.
#[tactic(auto, unfolding(crate::specs::Word::setting_of))]
fn setting_of(word: u32) -> Instruction
    ensures { result ≡ setting_of word }
{
    if word / 0x8000_0000 == 0 {
        return setting_by(
            word,
            avl_of(word),
            TypeSource::Given((word / 0x10_0000 % 2048) as u64),
        );
    }
    if word / 0x4000_0000 == 0b11 {
        return setting_by(
            word,
            AvlSource::Number(rs1(word) as u64),
            TypeSource::Given((word / 0x10_0000 % 1024) as u64),
        );
    }
    if word / 0x200_0000 == 0b1000000 {
        return setting_by(
            word,
            avl_of(word),
            TypeSource::InRegister(rs2(word) as usize),
        );
    }
    Instruction::Illegal
}

// ---- opcode 0x57

fn named(entry: Entry, word: u32) -> Instruction
    ensures { result ≡ named_of entry word }
{
    match entry {
        Entry::Operation(op) => operation_of(op, word),
        Entry::OnMask(op) => Instruction::Mask(MaskInstruction {
            op,
            rd: rd(word) as usize,
            vs2: rs2(word) as usize,
            masked: masked(word),
        }),
        Entry::Reduces(op) => Instruction::Reduction(ReductionInstruction {
            op,
            vd: rd(word) as usize,
            vs2: rs2(word) as usize,
            vs1: rs1(word) as usize,
            masked: masked(word),
        }),
        Entry::Permutes(op) => permutation_of(op, word),
        Entry::Packs(op) => pack_of(op, word),
        Entry::MovesScalar(op) => scalar_move_of(op, word),
        Entry::Setting => setting_of(word),
        Entry::Reserved
        | Entry::MergeOrMove
        | Entry::Vxunary0
        | Entry::Vwxunary0
        | Entry::Vmunary0 => Instruction::Illegal,
    }
}

#[tactic(auto, unfolding(crate::specs::Word::arithmetic_of))]
fn arithmetic_of(word: u32) -> Instruction
    ensures { result ≡ arithmetic_of word }
{
    let entry = entry_of(funct3(word), funct6(word));
    named(resolved(entry, word), word)
}

// ---- loads and stores

// EEW by the width field (section 8.3); none for the widths of scalar floating point.
#[tactic(auto, unfolding(crate::specs::Word::width_of))]
fn width_of(word: u32) -> Option<u64>
    ensures { result ≡ cond (eqb (width_of (funct3 word)) 0) None (Some (width_of (funct3 word))) }
{
    match funct3(word) {
        0b000 => Some(8),
        0b101 => Some(16),
        0b110 => Some(32),
        0b111 => Some(64),
        _ => None,
    }
}

fn access_of(store: bool, mode: Mode, further: u32, word: u32) -> Option<Access>
    ensures { accessing result ≡ sized word (access store mode further word) }
{
    Some(Access {
        store,
        mode,
        eew: width_of(word)?,
        vd: rd(word) as usize,
        rs1: rs1(word) as usize,
        masked: masked(word),
        nf: further,
    })
}

// Elements, or segments of nf + 1 fields (section 8.8).
fn segment_of(store: bool, mode: Mode, word: u32) -> Option<Access>
    ensures { accessing result ≡ sized word (segment_of store mode word) }
{
    access_of(store, mode, nf(word), word)
}

// vlm and vsm (section 8.4).
#[tactic(auto, unfolding(crate::specs::Word::mask_of))]
fn mask_of(store: bool, word: u32) -> Option<Access>
    ensures { accessing result ≡ sized word (mask_of store word) }
{
    if vm(word) == 1 && nf(word) == 0 && funct3(word) == 0 {
        return access_of(store, Mode::MaskBytes, 0, word);
    }
    None
}

// 1, 2, 4 or 8 registers.
fn whole_count(nf: u32) -> bool
    ensures { result ≡ whole_count nf }
{
    matches!(nf, 0 | 1 | 3 | 7)
}

// Whole registers (section 8.9).
#[tactic(auto, unfolding(crate::specs::Word::whole_of))]
fn whole_of(store: bool, word: u32) -> Option<Access>
    ensures { accessing result ≡ sized word (whole_of store word) }
{
    let nf = nf(word);
    if vm(word) == 1 && whole_count(nf) && (!store || funct3(word) == 0) {
        return access_of(store, Mode::Whole((nf + 1) as usize), 0, word);
    }
    None
}

// lumop and sumop (section 8.2).
#[tactic(auto, unfolding(crate::specs::Word::unit_of))]
fn unit_of(store: bool, word: u32) -> Option<Access>
    ensures { accessing result ≡ sized word (unit_of store word) }
{
    match rs2(word) {
        0b00000 => segment_of(store, Mode::UnitStride, word),
        0b01000 => whole_of(store, word),
        0b01011 => mask_of(store, word),
        _ => None,
    }
}

// mop and mew (sections 8.2, 8.3).
#[tactic(auto, unfolding(crate::specs::Word::memory_of))]
fn memory_of(store: bool, word: u32) -> Option<Access>
    ensures { accessing result ≡ memory_of store word }
{
    if mew(word) == 1 {
        return None;
    }
    let field = rs2(word) as usize;
    match mop(word) {
        0b00 => unit_of(store, word),
        0b10 => segment_of(store, Mode::Strided(field), word),
        _ => segment_of(store, Mode::Indexed(field), word),
    }
}

// What a word names: one instruction, or none that is legal.
#[tactic(auto, unfolding(crate::specs::Word::decode_of))]
pub fn decode(word: u32) -> Instruction
    ensures { result ≡ decode_of word }
{
    match opcode(word) {
        0x57 => arithmetic_of(word),
        0x07 => memory_of(false, word).map_or(Instruction::Illegal, Instruction::Memory),
        0x27 => memory_of(true, word).map_or(Instruction::Illegal, Instruction::Memory),
        _ => Instruction::Illegal,
    }
}
