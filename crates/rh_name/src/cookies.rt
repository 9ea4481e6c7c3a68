//! Cookies as text: as this project writes them, and as GUIDs.

ghost use Rattle.std.specs.Prelude.{◌≡◌, ◌++◌, codes, string_bytes};
ghost use Rattle.rh_sig.specs.Cookies.{text_of_cookie};
ghost use Rattle.rh_text.specs.Writing.{Writes};
ghost use Rattle.rh_name.specs.Fields.{ack_field, cookie_field, counts_field, guid_text, id_text, turned};

use crate::words::push;
use rh_rts::Cookie;
use rh_show::cookie_str;
use rh_sig::COOKIE_TEXT_LEN;
use rh_text::{Part, write_parts};
use std::alloc::AllocError;

/// The bytes in the order in which a GUID tells them: the first three of its fields are numbers
/// that stand with their least byte first.
fn turned(cookie: Cookie) -> Cookie
    ensures { result.0 ≡ turned cookie.0 }
{
    let b = cookie.0;
    Cookie([
        b[3], b[2], b[1], b[0], b[5], b[4], b[7], b[6], b[8], b[9], b[10], b[11], b[12], b[13],
        b[14], b[15],
    ])
}

/// Appends the cookie as a GUID, in parentheses.
#[tactic(auto, unfolding(crate::specs::Fields::guid_text))]
fn write_guid(cookie: Cookie, out: &mut String) -> Result<(), AllocError>
    ensures { Writes (guid_text cookie.0) result (string_bytes out.old) (string_bytes out.new) }
{
    let guid = turned(cookie);
    let mut room = [0; COOKIE_TEXT_LEN];
    let guid = Part::Text(cookie_str(&guid, &mut room));
    write_parts(&[Part::Text(" ("), guid, Part::Text(")")], out)
}

/// Appends a space and the cookie.
fn write_plain(cookie: Cookie, out: &mut String) -> Result<(), AllocError>
    ensures { Writes (codes " " ++ text_of_cookie cookie.0) result
        (string_bytes out.old) (string_bytes out.new) }
{
    let mut room = [0; COOKIE_TEXT_LEN];
    let id = Part::Text(cookie_str(&cookie, &mut room));
    write_parts(&[Part::Text(" "), id], out)
}

/// Appends the cookie, and behind it the same as a GUID.
#[tactic(auto, unfolding(crate::specs::Fields::id_text))]
fn write_id(cookie: Cookie, out: &mut String) -> Result<(), AllocError>
    ensures { Writes (id_text cookie.0) result (string_bytes out.old) (string_bytes out.new) }
{
    write_plain(cookie, out)?;
    write_guid(cookie, out)
}

/// Appends a word and the cookie, and behind it the same as a GUID.
pub fn write_cookie(word: &'static str, cookie: Cookie, out: &mut String) -> Result<(), AllocError>
    ensures { Writes (cookie_field word.now cookie.0) result
        (string_bytes out.old) (string_bytes out.new) }
{
    push(word, out)?;
    write_id(cookie, out)
}

/// Appends a word, the bytes received and the available window of an acknowledgement, both in
/// bytes.
#[tactic(auto, unfolding(crate::specs::Fields::counts_field))]
pub fn write_counts(
    word: &'static str,
    received: u32,
    window: u32,
    out: &mut String,
) -> Result<(), AllocError>
    ensures { Writes (counts_field word.now received window) result
        (string_bytes out.old) (string_bytes out.new) }
{
    let received = Part::Number(u64::from(received));
    let window = Part::Number(u64::from(window));
    let (word, between) = (Part::Text(word), Part::Text(" window "));
    write_parts(
        &[word, Part::Text(" received "), received, between, window],
        out,
    )
}

/// Appends a word and the fields of an acknowledgement.
pub fn write_ack(
    word: &'static str,
    received: u32,
    window: u32,
    cookie: Cookie,
    out: &mut String,
) -> Result<(), AllocError>
    ensures { Writes (ack_field word.now received window cookie.0) result
        (string_bytes out.old) (string_bytes out.new) }
{
    write_counts(word, received, window, out)?;
    write_cookie(" channel", cookie, out)
}
