// Reads and writes of the control record by CSR number (document 01, 'Control panel'): the record goes in and comes back by value.

#![tactic(auto)]

ghost use Rattle.std.specs.Prelude.{◌≡◌};
ghost use Rattle.csr.specs.Csr.{when_accessible, read_of, written_of};

use answer::Answer;
use control::{Control, Hart};

// ---- the CSR numbers, by the standard's names

pub const VSTART: u64 = 0x008;

pub const VXSAT: u64 = 0x009;

pub const VXRM: u64 = 0x00A;

pub const VCSR: u64 = 0x00F;

pub const VL: u64 = 0xC20;

pub const VTYPE: u64 = 0xC21;

pub const VLENB: u64 = 0xC22;

// ---- reads and writes

// Whether a CSR of the record may be read or written at all: it can be, and VS is not Off.
fn accessible(hart: Hart, control: Control) -> Result<(), Answer>
    ensures { result ≡ when_accessible hart.board control (Ok tt) }
{
    if !control.possible(hart) {
        return Err(Answer::BadControl);
    }
    if control.is_off() {
        return Err(Answer::Illegal);
    }
    Ok(())
}

// The value of a CSR, or the answer that refuses the read.
pub fn read(hart: Hart, control: Control, csr: u64) -> Result<u64, Answer>
    ensures { result ≡ read_of hart.board control csr }
{
    accessible(hart, control)?;
    match csr {
        VSTART => Ok(control.vstart),
        VXSAT => Ok(control.vxsat),
        VXRM => Ok(control.vxrm),
        VCSR => Ok(2 * control.vxrm + control.vxsat),
        VL => Ok(control.vl),
        VTYPE => Ok(control.vtype),
        VLENB => Ok(u64::from(hart.board.vlenb)),
        _ => Err(Answer::Illegal),
    }
}

// The record after a write, or the answer that refuses it.
pub fn write(hart: Hart, control: Control, csr: u64, value: u64) -> Result<Control, Answer>
    ensures { result ≡ written_of hart.board control csr value }
{
    accessible(hart, control)?;
    let next = control.dirtied();
    match csr {
        VSTART => Ok(next.with_vstart(value % (8 * u64::from(hart.board.vlenb)))),
        VXSAT => Ok(next.with_vxsat(value % 2)),
        VXRM => Ok(next.with_vxrm(value % 4)),
        VCSR => Ok(next.with_vxrm(value / 2 % 4).with_vxsat(value % 2)),
        _ => Err(Answer::Illegal),
    }
}
