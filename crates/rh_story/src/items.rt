//! Which bytes of a stream are an item: a frame (C706 12.6.3.1), a head (RFC 9112 section 2.1) or a
//! greeting (profile).

ghost use Rattle.std.specs.Prelude.{◌≡◌, ◌<◌, length};
ghost use Rattle.rh_story.specs.Items as seen;

use rh_http::got::GREATEST_HEAD;
use rh_pdu::Header;
use rh_pdu::header::{HEADER_LEN, VERSION};

/// What a server says first on a leg (profile).
const GREETING: [u8; 14] = *b"ncacn_http/1.0";

/// What a head ends with (RFC 9112 section 2.1).
const BLANK_LINE: [u8; 4] = *b"\r\n\r\n";

/// Whether the bytes begin as a frame does: with the version of the protocol.
pub(crate) fn is_framed(held: &[u8]) -> bool
    requires { 0 < length held.now }
    ensures { result ≡ seen.is_framed held.now }
{
    held[0] == VERSION
}

/// Whether a frame is whole, or its header breaks a rule.
#[tactic(auto, unfolding(crate::specs::Items::frame_whole))]
fn is_whole_frame(held: &[u8]) -> bool
    ensures { result ≡ seen.frame_whole held.now }
{
    let Some(head) = held.first_chunk::<HEADER_LEN>() else {
        return false;
    };
    match Header::read(head) {
        Ok(header) => usize::from(header.frag) <= held.len(),
        Err(_) => true,
    }
}

/// Whether a head or a greeting is whole.
#[tactic(auto, unfolding(crate::specs::Items::text_whole))]
fn is_whole_text(held: &[u8]) -> bool
    ensures { result ≡ seen.text_whole held.now }
{
    held.ends_with(&BLANK_LINE) || held == GREETING.as_slice() || held.len() >= GREATEST_HEAD
}

/// Whether the bytes that came so far are a whole item.
#[tactic(auto, unfolding(crate::specs::Items::is_whole))]
pub(crate) fn is_whole(held: &[u8]) -> bool
    requires { 0 < length held.now }
    ensures { result ≡ seen.is_whole held.now }
{
    if is_framed(held) {
        is_whole_frame(held)
    } else {
        is_whole_text(held)
    }
}
