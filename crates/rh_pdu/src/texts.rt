//! Appends the texts of faults: a name, and the numbers at fault.

ghost use Rattle.std.specs.Fmt.{decimal};
ghost use Rattle.std.specs.Prelude.{◌++◌, string_bytes};
ghost use Rattle.rh_text.specs.Writing.{Writes};
ghost use Rattle.rh_pdu.specs.Texts.{head_fault_text, pdu_fault_text};

use crate::fault::{HeadFault, PduFault};
use rh_text::{Part, write_parts};
use std::alloc::AllocError;

/// Appends the text of a header's fault: its name and the value at fault.
///
/// Fails where there is no memory for it; a front of the text may stand in `out` then.
pub fn write_head_fault(fault: HeadFault, out: &mut String) -> Result<(), AllocError>
    ensures { Writes (head_fault_text fault) result (string_bytes out.old) (string_bytes out.new) }
{
    match fault {
        HeadFault::Version(value) => write_named("Version ", u64::from(value), out),
        HeadFault::Minor(value) => write_named("Minor ", u64::from(value), out),
        HeadFault::ByteOrder(value) => write_named("ByteOrder ", u64::from(value), out),
        HeadFault::TooShort(frag) => write_named("TooShort ", u64::from(frag), out),
        HeadFault::TooLong(frag) => write_named("TooLong ", u64::from(frag), out),
    }
}

/// Appends the text of a PDU's fault: its name and its numbers. A header's fault stands for itself.
///
/// Fails where there is no memory for it; a front of the text may stand in `out` then.
pub fn write_pdu_fault(fault: PduFault, out: &mut String) -> Result<(), AllocError>
    ensures { Writes (pdu_fault_text fault) result (string_bytes out.old) (string_bytes out.new) }
{
    match fault {
        PduFault::Cut(len) => write_named("Cut ", len as u64, out),
        PduFault::Head(fault) => write_head_fault(fault, out),
        PduFault::Rts => write_parts(&[Part::Text("Rts")], out),
        PduFault::Length { frag, len } => write_parts(
            &[
                Part::Text("Length "),
                Part::Number(u64::from(frag)),
                Part::Text(" "),
                Part::Number(len as u64),
            ],
            out,
        ),
    }
}

/// Appends a name and a number.
fn write_named(name: &str, number: u64, out: &mut String) -> Result<(), AllocError>
    ensures { Writes (name.now ++ decimal number) result
        (string_bytes out.old) (string_bytes out.new) }
{
    write_parts(&[Part::Text(name), Part::Number(number)], out)
}
