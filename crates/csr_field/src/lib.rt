// The write by CSR number on a lent control record: the written field and VS are changed in it, no other.

#![tactic(auto)]

ghost use Rattle.std.specs.Prelude.{◌≡◌};
ghost use Rattle.csr.specs.Csr.{written_of, record_after, outcome};

use answer::Answer;
use control::{Control, Hart};
use csr::{VSTART, VXRM, VXSAT};

// The record is lent, and one field of it is stored to (of vcsr two), and VS.
pub fn write(hart: Hart, control: &mut Control, csr: u64, value: u64) -> Result<(), Answer>
    ensures answered { result ≡ outcome (written_of hart.board control.old csr value) }
    ensures stored { control.new ≡ record_after control.old (written_of hart.board control.old csr value) }
{
    let next = csr::write(hart, *control, csr, value)?;
    match csr {
        VSTART => control.vstart = next.vstart,
        VXSAT => control.vxsat = next.vxsat,
        VXRM => control.vxrm = next.vxrm,
        // vcsr, as no other CSR is written
        _ => {
            control.vxrm = next.vxrm;
            control.vxsat = next.vxsat;
        }
    }
    control.vs = next.vs;
    Ok(())
}

// The same for a caller that has the record by value: it is lent to `write` and handed back.
pub fn written(hart: Hart, control: Control, csr: u64, value: u64) -> Result<Control, Answer>
    ensures { result ≡ written_of hart.board control csr value }
{
    let mut record = control;
    write(hart, &mut record, csr, value)?;
    Ok(record)
}
