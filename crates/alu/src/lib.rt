// One element of any operation.

#![tactic(auto)]

ghost use Rattle.std.specs.Prelude.{◌≡◌};
ghost use Rattle.alu.specs.Element.{element_of, Operands};

use fixed::{Element, Vxrm};
use operation::Op;
use width::Eew;

// a is the element of vs2, b that of vs1 (or the scalar or immediate in its place), d that of vd before, c the bit of v0.
#[tactic(auto, using(crate::proofs::Arms::arms))]
pub fn element(op: Op, sew: u64, rm: Vxrm, a: u64, b: u64, d: u64, c: u64) -> Element
    requires { Operands op sew a b c }
    ensures { result ≡ element_of sew rm a b d c op }
{
    let sew = Eew { bits: sew };
    match op {
        Op::Vadd => Element::exact(integer::add(sew, a, b)),
        Op::Vsub => Element::exact(integer::sub(sew, a, b)),
        Op::Vrsub => Element::exact(integer::rsub(sew, a, b)),
        Op::Vwaddu => Element::exact(integer::waddu(sew, a, b)),
        Op::Vwadd => Element::exact(integer::wadd(sew, a, b)),
        Op::Vwsubu => Element::exact(integer::wsubu(sew, a, b)),
        Op::Vwsub => Element::exact(integer::wsub(sew, a, b)),
        Op::VwadduW => Element::exact(integer::waddu(sew, a, b)),
        Op::VwaddW => Element::exact(integer::wadd_w(sew, a, b)),
        Op::VwsubuW => Element::exact(integer::wsubu(sew, a, b)),
        Op::VwsubW => Element::exact(integer::wsub_w(sew, a, b)),
        Op::VzextVf2 => Element::exact(integer::zext(2, sew.bits, a)),
        Op::VsextVf2 => Element::exact(integer::sext(2, sew, a)),
        Op::VzextVf4 => Element::exact(integer::zext(4, sew.bits, a)),
        Op::VsextVf4 => Element::exact(integer::sext(4, sew, a)),
        Op::VzextVf8 => Element::exact(integer::zext(8, sew.bits, a)),
        Op::VsextVf8 => Element::exact(integer::sext(8, sew, a)),
        Op::Vadc => Element::exact(integer::adc(sew, a, b, c)),
        Op::Vsbc => Element::exact(integer::sbc(sew, a, b, c)),
        Op::Vmadc => Element::exact(integer::madc(sew, a, b, c)),
        Op::Vmsbc => Element::exact(integer::msbc(sew.bits, a, b, c)),
        Op::Vand => Element::exact(integer::and(sew.bits, a, b)),
        Op::Vor => Element::exact(integer::or(sew.bits, a, b)),
        Op::Vxor => Element::exact(integer::xor(sew.bits, a, b)),
        Op::Vsll => Element::exact(integer::sll(sew, a, b)),
        Op::Vsrl => Element::exact(integer::srl(sew, a, b)),
        Op::Vsra => Element::exact(integer::sra(sew, a, b)),
        Op::Vnsrl => Element::exact(integer::nsrl(sew, a, b)),
        Op::Vnsra => Element::exact(integer::nsra(sew, a, b)),
        Op::Vmseq => Element::exact(integer::mseq(sew.bits, a, b)),
        Op::Vmsne => Element::exact(integer::msne(sew.bits, a, b)),
        Op::Vmsltu => Element::exact(integer::msltu(sew.bits, a, b)),
        Op::Vmslt => Element::exact(integer::mslt(sew, a, b)),
        Op::Vmsleu => Element::exact(integer::msleu(sew.bits, a, b)),
        Op::Vmsle => Element::exact(integer::msle(sew, a, b)),
        Op::Vmsgtu => Element::exact(integer::msgtu(sew.bits, a, b)),
        Op::Vmsgt => Element::exact(integer::msgt(sew, a, b)),
        Op::Vminu => Element::exact(integer::minu(sew.bits, a, b)),
        Op::Vmin => Element::exact(integer::min(sew, a, b)),
        Op::Vmaxu => Element::exact(integer::maxu(sew.bits, a, b)),
        Op::Vmax => Element::exact(integer::max(sew, a, b)),
        Op::Vmul => Element::exact(multiply::mul(sew, a, b)),
        Op::Vmulh => Element::exact(multiply::mulh(sew, a, b)),
        Op::Vmulhu => Element::exact(multiply::mulhu(sew, a, b)),
        Op::Vmulhsu => Element::exact(multiply::mulhsu(sew, a, b)),
        Op::Vdivu => Element::exact(multiply::divu(sew, a, b)),
        Op::Vdiv => Element::exact(multiply::div(sew, a, b)),
        Op::Vremu => Element::exact(multiply::remu(sew.bits, a, b)),
        Op::Vrem => Element::exact(multiply::rem(sew, a, b)),
        Op::Vwmul => Element::exact(multiply::wmul(sew, a, b)),
        Op::Vwmulu => Element::exact(multiply::wmulu(sew, a, b)),
        Op::Vwmulsu => Element::exact(multiply::wmulsu(sew, a, b)),
        Op::Vmacc => Element::exact(multiply::macc(sew, a, b, d)),
        Op::Vnmsac => Element::exact(multiply::nmsac(sew, a, b, d)),
        Op::Vmadd => Element::exact(multiply::madd(sew, a, b, d)),
        Op::Vnmsub => Element::exact(multiply::nmsub(sew, a, b, d)),
        Op::Vwmaccu => Element::exact(multiply::wmaccu(sew, a, b, d)),
        Op::Vwmacc => Element::exact(multiply::wmacc(sew, a, b, d)),
        Op::Vwmaccsu => Element::exact(multiply::wmaccsu(sew, a, b, d)),
        Op::Vwmaccus => Element::exact(multiply::wmaccus(sew, a, b, d)),
        Op::Vmerge => Element::exact(integer::merge(sew.bits, a, b, c)),
        Op::Vmv => Element::exact(integer::mv(sew.bits, b)),
        Op::Vsaddu => fixed::saddu(sew, a, b),
        Op::Vsadd => fixed::sadd(sew, a, b),
        Op::Vssubu => fixed::ssubu(sew, a, b),
        Op::Vssub => fixed::ssub(sew, a, b),
        Op::Vaaddu => Element::exact(fixed::aaddu(rm, sew, a, b)),
        Op::Vaadd => Element::exact(fixed::aadd(rm, sew, a, b)),
        Op::Vasubu => Element::exact(fixed::asubu(rm, sew, a, b)),
        Op::Vasub => Element::exact(fixed::asub(rm, sew, a, b)),
        Op::Vsmul => fixed::smul(rm, sew, a, b),
        Op::Vssrl => Element::exact(fixed::ssrl(rm, sew, a, b)),
        Op::Vssra => Element::exact(fixed::ssra(rm, sew, a, b)),
        Op::Vnclipu => fixed::nclipu(rm, sew, a, b),
        Op::Vnclip => fixed::nclip(rm, sew, a, b),
        Op::Vmand => Element::exact(integer::mask::and(a, b)),
        Op::Vmnand => Element::exact(integer::mask::nand(a, b)),
        Op::Vmandn => Element::exact(integer::mask::andn(a, b)),
        Op::Vmxor => Element::exact(integer::mask::xor(a, b)),
        Op::Vmor => Element::exact(integer::mask::or(a, b)),
        Op::Vmnor => Element::exact(integer::mask::nor(a, b)),
        Op::Vmorn => Element::exact(integer::mask::orn(a, b)),
        Op::Vmxnor => Element::exact(integer::mask::xnor(a, b)),
    }
}
