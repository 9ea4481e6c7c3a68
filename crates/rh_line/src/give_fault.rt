//! Why an end doesn't accept a PDU.

use crate::cause::Cause;
use rh_pdu::PduFault;

/// Why a PDU was not accepted. Nothing has changed then.
#[derive(Clone, Copy, Debug, PartialEq, Eq)]
pub enum GiveFault {
    /// The queue has no room: `held` bytes wait there, and the PDU has `len`.
    Full { held: usize, len: usize },
    /// The bytes are no PDU.
    BadPdu(PduFault),
    /// The end was told that no PDU will be given any more.
    Closing,
    /// The end closed, with this cause.
    Closed(Cause),
}
