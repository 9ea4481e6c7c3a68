//! The Content-Length among the fields of a head (RFC 9112 sections 5 and 6.2).

ghost use Rattle.std.specs.Prelude.{◌≡◌, ◌≤◌, ◌∷◌, [], ℕ, List, All, length, map, MatchOption, IsTrue};
ghost use Rattle.httparse.specs.Spans.{IsHeaderWithin, header_bytes};
ghost use Rattle.rh_http.specs.Lengths.{is_content_length, lengths_of, may_ask, AsksLength, TellsLength};
ghost use Rattle.rh_http.specs.Lengths.{is_content_length as content_length};
ghost use Rattle.rh_http.specs.Found.{IsFound};

use crate::numbers::read_length;
use httparse::spans::HeaderSpan;
use rh_keep::{GREATEST_LIFETIME, LEAST_LIFETIME};

/// The most bytes of an echo request (profile).
pub const GREATEST_ECHO: u32 = 16;
/// The bytes of the packet that opens an OUT channel (profile).
pub const OPENS_OUT: u32 = 76;
/// The bytes of the packets that replace an OUT channel (profile).
pub const REPLACES_OUT: u32 = 120;
/// The bytes of a response that are above the lifetime of its OUT channel, for Pings (profile).
pub const PING_ROOM: u32 = 65_536;
/// The greatest length of a response, in bytes (profile).
pub const GREATEST_RESPONSE: u32 = GREATEST_LIFETIME + PING_ROOM;
/// The status of success (RFC 9110 section 15.3.1).
pub const SUCCESS: u16 = 200;
/// The status where the head is at fault elsewhere than in its path (RFC 9110 section 15.5.1).
pub const BAD_REQUEST: u16 = 400;
/// The status where the path is not that of a proxy (RFC 9110 section 15.5.5).
pub const NOT_FOUND: u16 = 404;
/// The status where the server could not be connected (RFC 9110 section 15.6.4).
pub const SERVICE_UNAVAILABLE: u16 = 503;

/// The values of the fields with that name.
#[derive(Clone, Copy)]
pub enum Lengths<'a> {
    Absent,
    Once(&'a [u8]),
    Again,
}

fn is_content_length(name: &[u8]) -> bool
    ensures { result ≡ content_length name.now }
{
    name.eq_ignore_ascii_case(b"content-length")
}

/// Looks for the field.
fn find_lengths<'a>(head: &'a [u8], fields: &[HeaderSpan]) -> Lengths<'a>
    requires { All (IsHeaderWithin (length head.now)) fields.now }
    ensures { IsFound (lengths_of (map (header_bytes head.now) fields.now)) result }
{
    let mut found = None;
    for field in fields {
        if is_content_length(field.name.of(head)) {
            if found.is_some() {
                return Lengths::Again;
            }
            found = Some(field.value.of(head));
        }
    }
    match found {
        Some(text) => Lengths::Once(text),
        None => Lengths::Absent,
    }
}

/// Whether a request for an IN channel (true) or an OUT channel may have this length.
fn may_ask_length(inbound: bool, length: u64) -> bool
    ensures { result ≡ may_ask inbound length }
{
    if length <= u64::from(GREATEST_ECHO) {
        return true;
    }
    if inbound {
        length >= u64::from(LEAST_LIFETIME) && length <= u64::from(GREATEST_LIFETIME)
    } else {
        length == u64::from(OPENS_OUT) || length == u64::from(REPLACES_OUT)
    }
}

/// The length of a request for an IN channel (true) or an OUT channel.
pub fn request_length(head: &[u8], fields: &[HeaderSpan], inbound: bool) -> Option<u32>
    requires { All (IsHeaderWithin (length head.now)) fields.now }
    ensures { MatchOption result
        ((n : ℕ) → ¬ AsksLength inbound (map (header_bytes head.now) fields.now) n)
        (λ n. AsksLength inbound (map (header_bytes head.now) fields.now) n) }
{
    let Lengths::Once(text) = find_lengths(head, fields) else {
        return None;
    };
    let length = read_length(text)?;
    if may_ask_length(inbound, length) {
        Some(length as u32)
    } else {
        None
    }
}

/// The length of a response with this status.
pub fn response_length(head: &[u8], fields: &[HeaderSpan], status: u16) -> Option<u32>
    requires { All (IsHeaderWithin (length head.now)) fields.now }
    ensures { MatchOption result
        ((n : ℕ) → ¬ TellsLength status (map (header_bytes head.now) fields.now) n)
        (λ n. TellsLength status (map (header_bytes head.now) fields.now) n) }
{
    match find_lengths(head, fields) {
        Lengths::Absent if status != SUCCESS => Some(0),
        Lengths::Once(text) => {
            let length = read_length(text)?;
            if length <= u64::from(GREATEST_RESPONSE) {
                Some(length as u32)
            } else {
                None
            }
        }
        Lengths::Absent | Lengths::Again => None,
    }
}
