//! The PDUs that a generated recording gives.

ghost use Rattle.std.specs.Prelude.{◌≡◌, IfOk};
ghost use Rattle.rh_made.specs.Requests as seen;

use rh_pdu::header::{HEADER_LEN, VERSION};
use rh_record::Bytes;
use std::alloc::{AllocError, Global};

/// The least size of a PDU, in bytes.
pub const LEAST_SIZE: u16 = 24;

/// By how many bytes the size rises from one PDU to the next, as long as it is one that there is.
pub const SIZE_STEP: u64 = 613;

/// How many sizes there are, from the least on.
pub const SIZES: u64 = 5000;

/// How many bytes a PDU of this number has: 24 to 5,023.
fn size(number: u32) -> u16
    ensures { result ≡ seen.size number }
{
    let more = u64::from(number) * SIZE_STEP % SIZES;
    LEAST_SIZE + more as u16
}

/// Its header: version 5.0, a request, first and last fragment, the least byte of a number first,
/// no authentication, and the number as that of the call (C706 12.6.3.1).
fn header(number: u32) -> [u8; HEADER_LEN]
    ensures { result ≡ seen.header number }
{
    let [low, high] = size(number).to_le_bytes();
    let [first, second, third, fourth] = number.to_le_bytes();
    [
        VERSION, 0, 0, 3, 16, 0, 0, 0, low, high, 0, 0, first, second, third, fourth,
    ]
}

/// The PDU of this number.
///
/// Fails where there is no memory.
#[tactic(auto, unfolding(crate::specs::Requests::pdu), using(crate::proofs::Pdus::filled))]
pub fn pdu(alloc: Global, number: u32) -> Result<Bytes, AllocError>
    ensures { IfOk result (λ bytes. bytes ≡ seen.pdu number) }
{
    let size = usize::from(size(number));
    let mut bytes = Vec::with_capacity(alloc, size)?;
    bytes.extend_from_slice(&header(number))?;
    bytes.resize(size, (number % 256) as u8)?;
    Ok(Bytes::new(bytes))
}
