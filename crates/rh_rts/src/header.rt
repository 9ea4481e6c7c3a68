//! The header of a packet (MS-RPCH 2.2.3.6).

ghost use Rattle.std.specs.Prelude.{◌≡◌, ◌≤◌, ◌<◌, ◌+◌, length, take, drop, MatchOption};
ghost use Rattle.std.specs.Prelude.{MatchResult};
ghost use Rattle.rh_rts.specs.Packets.{header_front};
ghost use Rattle.rh_rts.specs.Refusals.{DiffersAt, IsHead, HeadFault, flags_of, count_of, le2_at};

use crate::fault::{RtsFault, RtsKind};
use crate::packet::ALL_FLAGS;

/// The length of the header of a packet, in bytes.
pub const PACKET_HEADER_LEN: usize = 20;
/// Where frag_length stands.
pub const FRAG_AT: usize = 8;
/// Where the flags stand, behind what every packet begins with.
pub const FLAGS_AT: usize = 16;
/// Where the number of commands stands.
pub const COUNT_AT: usize = 18;

/// The header up to the flags, with these bytes of frag_length.
pub fn header_front(frag: [u8; 2]) -> [u8; FLAGS_AT]
    ensures { result ≡ header_front frag }
{
    [5, 0, 20, 3, 16, 0, 0, 0, frag[0], frag[1], 0, 0, 0, 0, 0, 0]
}

/// The place of the first byte that isn't the one that is wanted.
fn first_difference(want: &[u8], bytes: &[u8]) -> Option<usize>
    requires { length want.now ≤ length bytes.now }
    ensures { MatchOption result (take (length want.now) bytes.now ≡ want.now)
        (λ place. DiffersAt place want.now bytes.now) }
{
    for i in 0..want.len() {
        if bytes[i] != want[i] {
            return Some(i);
        }
    }
    None
}

/// The number of two bytes from this place on.
fn le2_at(bytes: &[u8], at: usize) -> u16
    requires { at + 1 < length bytes.now }
    ensures { result ≡ le2_at bytes.now at }
{
    u16::from_le_bytes([bytes[at], bytes[at + 1]])
}

/// The flags, the number of commands, and the bytes of the commands.
pub fn read_head(bytes: &[u8]) -> Result<(u16, u16, &[u8]), RtsFault>
    ensures { MatchResult result
        (λ x. IsHead bytes.now × (x.0 ≡ flags_of bytes.now) × (x.1 ≡ count_of bytes.now)
        × (x.2.now ≡ drop PACKET_HEADER_LEN bytes.now))
        (λ wrong. HeadFault bytes.now wrong.place wrong.kind) }
{
    if bytes.len() < PACKET_HEADER_LEN {
        return Err(RtsFault {
            place: bytes.len(),
            kind: RtsKind::CutShort,
        });
    }
    let want = header_front([bytes[FRAG_AT], bytes[FRAG_AT + 1]]);
    if let Some(place) = first_difference(&want, bytes) {
        return Err(RtsFault {
            place,
            kind: RtsKind::BadHeader,
        });
    }
    if usize::from(le2_at(bytes, FRAG_AT)) != bytes.len() {
        return Err(RtsFault {
            place: FRAG_AT,
            kind: RtsKind::BadLength,
        });
    }
    let flags = le2_at(bytes, FLAGS_AT);
    if flags > ALL_FLAGS {
        return Err(RtsFault {
            place: FLAGS_AT,
            kind: RtsKind::BadFlags,
        });
    }
    let (_, rest) = bytes.split_at(PACKET_HEADER_LEN);
    Ok((flags, le2_at(bytes, COUNT_AT), rest))
}
