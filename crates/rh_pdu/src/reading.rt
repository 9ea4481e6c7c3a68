//! The fields of a header that rules speak of (C706 12.6.3.1).

ghost use Rattle.std.specs.Prelude.{◌≡◌, ◌≤◌, ◌<◌, ◌+◌, length};
ghost use Rattle.rh_pdu.specs.Header.{header_length, is_little, short_at, long_at, frag_of, head_fault};

use crate::fault::HeadFault;
use crate::header::{
    FRAG_AT, GREATEST_FRAG, GREATEST_MINOR, HEADER_LEN, LITTLE_ENDIAN, MINOR_AT, ORDER_AT, VERSION,
    VERSION_AT,
};

/// Whether integers have their least byte first.
pub fn is_little(bytes: &[u8]) -> bool
    requires { header_length ≤ length bytes.now }
    ensures { result ≡ is_little bytes.now }
{
    bytes[ORDER_AT] / 16 == LITTLE_ENDIAN
}

/// The two bytes from this place on, as a number in the header's own byte order.
pub fn short_at(bytes: &[u8], at: usize) -> u16
    requires header { header_length ≤ length bytes.now }
    requires within { at + 1 < header_length }
    ensures { result ≡ short_at bytes.now at }
{
    let first = u16::from(bytes[at]);
    let last = u16::from(bytes[at + 1]);
    if is_little(bytes) {
        first + 256 * last
    } else {
        last + 256 * first
    }
}

/// The four bytes from this place on, as a number in the header's own byte order.
pub fn long_at(bytes: &[u8], at: usize) -> u32
    requires header { header_length ≤ length bytes.now }
    requires within { at + 3 < header_length }
    ensures { result ≡ long_at bytes.now at }
{
    let first = u32::from(short_at(bytes, at));
    let last = u32::from(short_at(bytes, at + 2));
    if is_little(bytes) {
        first + 65536 * last
    } else {
        last + 65536 * first
    }
}

/// The length of the PDU that a header tells, in bytes.
#[tactic(auto, unfolding(crate::specs::Header::frag_of))]
pub fn frag_of(bytes: &[u8]) -> u16
    requires { header_length ≤ length bytes.now }
    ensures { result ≡ frag_of bytes.now }
{
    short_at(bytes, FRAG_AT)
}

/// The first rule that a header breaks.
#[tactic(auto, unfolding(crate::specs::Header::head_fault))]
pub fn head_fault(bytes: &[u8]) -> Option<HeadFault>
    requires { header_length ≤ length bytes.now }
    ensures { result ≡ head_fault bytes.now }
{
    if bytes[VERSION_AT] != VERSION {
        return Some(HeadFault::Version(bytes[VERSION_AT]));
    }
    if bytes[MINOR_AT] > GREATEST_MINOR {
        return Some(HeadFault::Minor(bytes[MINOR_AT]));
    }
    if bytes[ORDER_AT] / 16 > LITTLE_ENDIAN {
        return Some(HeadFault::ByteOrder(bytes[ORDER_AT]));
    }
    let frag = frag_of(bytes);
    if usize::from(frag) < HEADER_LEN {
        return Some(HeadFault::TooShort(frag));
    }
    if usize::from(frag) > GREATEST_FRAG {
        return Some(HeadFault::TooLong(frag));
    }
    None
}
