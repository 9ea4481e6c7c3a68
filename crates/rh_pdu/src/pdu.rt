//! Which bytes are a PDU that may be sent and delivered.

ghost use Rattle.std.specs.Prelude.{◌≡◌, ◌↔◌, IsOk};
ghost use Rattle.rh_pdu.specs.Frames.{IsPdu};
ghost use Rattle.rh_pdu.specs.Checking.{checked, pdu_fault};

use crate::fault::PduFault;
use crate::header::{HEADER_LEN, PTYPE_AT, RTS};
use crate::reading::{frag_of, head_fault};

/// Whether the bytes are one whole PDU that is no RTS PDU.
///
/// Fails with the first of these: fewer than 16 bytes (`Cut`), a header that breaks a rule
/// (`Head`), an RTS PDU (`Rts`), and a frag_length that isn't the number of bytes (`Length`).
pub fn check(bytes: &[u8]) -> Result<(), PduFault>
    ensures fault { result ≡ checked (pdu_fault bytes.now) }
    ensures pdu { IsOk result ↔ IsPdu bytes.now }
{
    if bytes.len() < HEADER_LEN {
        return Err(PduFault::Cut(bytes.len()));
    }
    if let Some(fault) = head_fault(bytes) {
        return Err(PduFault::Head(fault));
    }
    if bytes[PTYPE_AT] == RTS {
        return Err(PduFault::Rts);
    }
    let frag = frag_of(bytes);
    if usize::from(frag) != bytes.len() {
        return Err(PduFault::Length {
            frag,
            len: bytes.len(),
        });
    }
    Ok(())
}
