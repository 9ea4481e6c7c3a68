//! Appends texts, so that what stands after want of memory is known.

ghost use Rattle.std.specs.Prelude.{◌≡◌, ◌≤◌, ◌++◌, IsAscii, IfSome, MatchOption};
ghost use Rattle.std.specs.Prelude.{length, string_bytes, take};
ghost use Rattle.std.specs.Str.{IsUtf8};
ghost use Rattle.hex.specs.Hex.{encode_lower};
ghost use Rattle.rh_text.specs.Writing.{Writes, part_text, parts_text};

use crate::digits::write_hex;
use hex::encode_to_slice;
use itoa::Buffer;
use std::alloc::AllocError;
use std::str;

/// How many bytes of text are gathered before they are appended.
const ROOM: usize = 128;

/// A part of a text.
#[derive(Clone, Copy)]
pub enum Part<'a> {
    /// The text as it is.
    Text(&'a str),
    /// A number in decimal.
    Number(u64),
    /// Bytes as hex digits in lower case.
    Hex(&'a [u8]),
}

/// Appends a text, which is not looked at.
fn push_utf8(text: &[u8], out: &mut String) -> Result<(), AllocError>
    requires { IsUtf8 text.now }
    ensures { Writes text.now result (string_bytes out.old) (string_bytes out.new) }
{
    out.push_str(unsafe { str::from_utf8_unchecked(text) })
}

/// Appends a text of ASCII alone.
pub fn push_ascii(text: &[u8], out: &mut String) -> Result<(), AllocError>
    requires { IsAscii text.now }
    ensures { Writes text.now result (string_bytes out.old) (string_bytes out.new) }
{
    push_utf8(text, out)
}

/// Appends one part.
fn write_part(part: &Part<'_>, out: &mut String) -> Result<(), AllocError>
    ensures { Writes (part_text part.now) result (string_bytes out.old) (string_bytes out.new) }
{
    match part {
        Part::Text(text) => out.push_str(text),
        Part::Number(number) => out.push_str(Buffer::new().format(*number)),
        Part::Hex(bytes) => write_hex(bytes, out),
    }
}

/// Copies a text behind the first bytes of a room, and tells where it ends; `None` where there is
/// no place for it, and nothing is copied then.
#[inline(always)]
fn gather_text(text: &[u8], room: &mut [u8], held: usize) -> Option<usize>
    requires { held ≤ length room.old }
    ensures gathered { MatchOption result (room.new ≡ room.old)
        (λ end. (end ≤ length room.new) × (take end room.new ≡ take held room.old ++ text.now)) }
    ensures same_length { length room.new ≡ length room.old }
{
    if text.len() > room.len() - held {
        return None;
    }
    let end = held + text.len();
    if let [byte] = text {
        room[held] = *byte;
    } else {
        room[held..end].copy_from_slice(text);
    }
    Some(end)
}

/// Writes the digits of bytes behind the first bytes of a room, and tells where they end; `None`
/// where there is no place for them, and nothing is written then.
fn gather_hex(bytes: &[u8], room: &mut [u8], held: usize) -> Option<usize>
    requires { held ≤ length room.old }
    ensures gathered { MatchOption result (room.new ≡ room.old)
        (λ end. (end ≤ length room.new)
        × (take end room.new ≡ take held room.old ++ encode_lower bytes.now)) }
    ensures same_length { length room.new ≡ length room.old }
{
    if bytes.len() > (room.len() - held) / 2 {
        return None;
    }
    let end = held + 2 * bytes.len();
    let Ok(()) = encode_to_slice(bytes, &mut room[held..end]) else {
        unreachable!()
    };
    Some(end)
}

/// Writes a part behind the first bytes of a room, and tells where it ends; `None` where there is
/// no place for it, and nothing is written then.
#[inline(always)]
fn gather(part: &Part<'_>, room: &mut [u8], held: usize) -> Option<usize>
    requires { held ≤ length room.old }
    ensures gathered { MatchOption result (room.new ≡ room.old)
        (λ end. (end ≤ length room.new)
        × (take end room.new ≡ take held room.old ++ part_text part.now)) }
    ensures utf8 { IsUtf8 (part_text part.now) }
    ensures same_length { length room.new ≡ length room.old }
{
    match part {
        Part::Text(text) => gather_text(text.as_bytes(), room, held),
        Part::Number(number) => gather_text(Buffer::new().format(*number).as_bytes(), room, held),
        Part::Hex(bytes) => gather_hex(bytes, room, held),
    }
}

/// Appends a gathered text, and a part that has no place behind it.
fn write_behind(gathered: &[u8], part: &Part<'_>, out: &mut String) -> Result<(), AllocError>
    requires { IsUtf8 gathered.now }
    ensures { Writes (gathered.now ++ part_text part.now) result
        (string_bytes out.old) (string_bytes out.new) }
{
    push_utf8(gathered, out)?;
    write_part(part, out)
}

/// Appends the parts, one behind the other.
///
/// Fails where there is no memory for the text; a front of what was to come may stand there then.
pub fn write_parts(parts: &[Part<'_>], out: &mut String) -> Result<(), AllocError>
    ensures { Writes (parts_text parts.now) result (string_bytes out.old) (string_bytes out.new) }
{
    let mut room = [0; ROOM];
    let mut held = 0;
    for part in parts {
        held = match gather(part, &mut room, held) {
            Some(end) => end,
            None => {
                write_behind(&room[..held], part, out)?;
                0
            }
        };
    }
    push_utf8(&room[..held], out)
}

/// Writes two parts behind the first bytes of a room, and tells where they end; `None` where there
/// is no place for them.
#[inline(always)]
fn gather_two(one: &Part<'_>, two: &Part<'_>, room: &mut [u8], held: usize) -> Option<usize>
    requires { held ≤ length room.old }
    ensures gathered { IfSome result (λ end. (end ≤ length room.new)
        × (take end room.new ≡ take held room.old ++ (part_text one.now ++ part_text two.now))) }
    ensures utf8 { IfSome result (λ end. IsUtf8 (part_text one.now ++ part_text two.now)) }
    ensures same_length { length room.new ≡ length room.old }
{
    let middle = gather(one, room, held)?;
    let end = gather(two, room, middle)?;
    Some(end)
}

/// Appends three parts as `write_parts` does, and sooner where they are short.
#[inline(always)]
pub fn write_three(parts: &[Part<'_>; 3], out: &mut String) -> Result<(), AllocError>
    ensures { Writes (parts_text parts.now) result (string_bytes out.old) (string_bytes out.new) }
{
    let [one, two, three] = *parts;
    let mut room = [0; ROOM];
    if let Some(held) = gather_two(&one, &two, &mut room, 0) {
        if let Some(end) = gather(&three, &mut room, held) {
            return push_utf8(&room[..end], out);
        }
    }
    write_parts(&[one, two, three], out)
}

/// Appends five parts as `write_parts` does, and sooner where they are short.
#[inline(always)]
pub fn write_five(parts: &[Part<'_>; 5], out: &mut String) -> Result<(), AllocError>
    ensures { Writes (parts_text parts.now) result (string_bytes out.old) (string_bytes out.new) }
{
    let [one, two, three, four, five] = *parts;
    let mut room = [0; ROOM];
    if let Some(held) = gather_two(&one, &two, &mut room, 0) {
        if let Some(more) = gather_two(&three, &four, &mut room, held) {
            if let Some(end) = gather(&five, &mut room, more) {
                return push_utf8(&room[..end], out);
            }
        }
    }
    write_parts(&[one, two, three, four, five], out)
}
