//! Bytes as hex digits, two for each byte, the high four bits first.

ghost use Rattle.std.specs.Prelude.{◌≡◌, ◌+◌, ◌*◌, ◌^◌, ◌<◌, ◌≤◌, ◌↔◌, ℕ, List, length, take, IsTrue};
ghost use Rattle.std.specs.Prelude.{IfOk, MatchOption, MatchResult, string_bytes};
ghost use Rattle.std.specs.List.{list_all};
ghost use Rattle.hex.specs.Hex.{decode_sized, encode_lower, is_hex_digit, pair_value, value_at};
ghost use Rattle.rh_text.specs.Digits.{IsHex};
ghost use Rattle.rh_text.specs.Writing.{Writes};

use crate::bytes::Bytes;
use crate::writing::push_ascii;
use hex::FromHexError;
use std::alloc::{AllocError, Global};

/// How many bytes are written as digits at a time.
const PIECE: usize = 128;

/// The value of each byte as a hex digit of either case; 255 where it is none.
///
/// A look-up takes the same time for every digit; comparisons would be mispredicted on random ones.
const DIGITS: [u8; 256] = [
    255, 255, 255, 255, 255, 255, 255, 255, 255, 255, 255, 255, 255, 255, 255, 255, 255, 255, 255,
    255, 255, 255, 255, 255, 255, 255, 255, 255, 255, 255, 255, 255, 255, 255, 255, 255, 255, 255,
    255, 255, 255, 255, 255, 255, 255, 255, 255, 255, 0, 1, 2, 3, 4, 5, 6, 7, 8, 9, 255, 255, 255,
    255, 255, 255, 255, 10, 11, 12, 13, 14, 15, 255, 255, 255, 255, 255, 255, 255, 255, 255, 255,
    255, 255, 255, 255, 255, 255, 255, 255, 255, 255, 255, 255, 255, 255, 255, 255, 10, 11, 12, 13,
    14, 15, 255, 255, 255, 255, 255, 255, 255, 255, 255, 255, 255, 255, 255, 255, 255, 255, 255,
    255, 255, 255, 255, 255, 255, 255, 255, 255, 255, 255, 255, 255, 255, 255, 255, 255, 255, 255,
    255, 255, 255, 255, 255, 255, 255, 255, 255, 255, 255, 255, 255, 255, 255, 255, 255, 255, 255,
    255, 255, 255, 255, 255, 255, 255, 255, 255, 255, 255, 255, 255, 255, 255, 255, 255, 255, 255,
    255, 255, 255, 255, 255, 255, 255, 255, 255, 255, 255, 255, 255, 255, 255, 255, 255, 255, 255,
    255, 255, 255, 255, 255, 255, 255, 255, 255, 255, 255, 255, 255, 255, 255, 255, 255, 255, 255,
    255, 255, 255, 255, 255, 255, 255, 255, 255, 255, 255, 255, 255, 255, 255, 255, 255, 255, 255,
    255, 255, 255, 255, 255, 255, 255, 255, 255, 255, 255, 255, 255, 255, 255, 255, 255, 255, 255,
    255, 255, 255,
];

/// The value of a digit, which stands at that place of its text.
#[inline]
fn digit_value(digit: u8, place: usize) -> Result<u8, FromHexError>
    ensures { result ≡ value_at digit place }
{
    let value = DIGITS[digit as usize];
    if value < 16 {
        Ok(value)
    } else {
        Err(FromHexError::InvalidHexCharacter {
            c: char::from(digit),
            index: place,
        })
    }
}

/// The byte of two digits, the first of which stands at that place of its text.
#[inline]
fn byte_value(high: u8, low: u8, place: usize) -> Result<u8, FromHexError>
    requires { place + 1 < 2 ^ 64 }
    ensures { result ≡ pair_value high low place }
{
    Ok(digit_value(high, place)? * 16 + digit_value(low, place + 1)?)
}

/// Whether each byte is a hex digit of either case.
///
/// No byte ends the loop, so that it is compiled to judge many at a time.
fn are_digits(text: &[u8]) -> bool
    ensures { result ≡ list_all is_hex_digit text.now }
{
    let mut all = true;
    for digit in text {
        all &= digit.is_ascii_hexdigit();
    }
    all
}

/// Decodes a text into a room of the size that it asks for, with the meaning of
/// `hex::decode_to_slice`.
fn decode_whole(text: &[u8], room: &mut [u8]) -> Result<(), FromHexError>
    ensures { MatchResult (decode_sized text.now (length room.old))
        (λ bytes. (result ≡ Ok tt) × (room.new ≡ bytes))
        (λ fault. result ≡ Err fault) }
{
    if text.len() % 2 != 0 {
        return Err(FromHexError::OddLength);
    }
    if text.len() / 2 != room.len() {
        return Err(FromHexError::InvalidStringLength);
    }
    'bytes: for i in 0..room.len() {
        room[i] = byte_value(text[2 * i], text[2 * i + 1], 2 * i)?;
    }
    Ok(())
}

/// Whether the text is hex of 1 to `most` bytes. Nothing is decoded and no memory is taken.
pub fn is_hex(text: &[u8], most: usize) -> bool
    ensures { IsTrue result ↔ ((bytes : List ℕ) × IsHex most text.now bytes) }
{
    if text.is_empty() || text.len() % 2 != 0 || text.len() / 2 > most {
        return false;
    }
    are_digits(text)
}

/// Writes the bytes that the text spells to the front of a room, and tells how many: 1 to the
/// length of the room. `None` exactly where it is hex of no such bytes; the room may have changed
/// then.
pub fn decode_hex(text: &[u8], room: &mut [u8]) -> Option<usize>
    ensures bytes { MatchOption result ((bytes : List ℕ) → ¬ IsHex (length room.old) text.now bytes)
        (λ count. IsHex (length room.old) text.now (take count room.new)) }
    ensures within { MatchOption result (Unit {0}) (λ count. count ≤ length room.old) }
    ensures same_length { length room.new ≡ length room.old }
{
    let count = text.len() / 2;
    if count == 0 || count > room.len() {
        return None;
    }
    match decode_whole(text, &mut room[..count]) {
        Ok(()) => Some(count),
        Err(_) => None,
    }
}

/// The 1 to `most` bytes that the text spells as hex; `None` exactly where it is hex of no such
/// bytes.
///
/// Fails where there is no memory for the bytes.
pub fn read_hex(alloc: Global, text: &[u8], most: usize) -> Result<Option<Bytes>, AllocError>
    ensures { IfOk result (λ found. MatchOption found
        ((bytes : List ℕ) → ¬ IsHex most text.now bytes)
        (λ bytes. IsHex most text.now bytes)) }
{
    let count = text.len() / 2;
    if count == 0 || count > most {
        return Ok(None);
    }
    let mut bytes = vec![in alloc; 0u8; count]?;
    match decode_whole(text, bytes.as_mut_slice()) {
        Ok(()) => Ok(Some(Bytes::new(bytes))),
        Err(_) => Ok(None),
    }
}

/// Appends at most 128 bytes as hex digits in lower case.
fn write_piece(piece: &[u8], out: &mut String) -> Result<(), AllocError>
    requires { length piece.now ≤ PIECE }
    ensures { Writes (encode_lower piece.now) result (string_bytes out.old) (string_bytes out.new) }
{
    let mut room = [0; 2 * PIECE];
    let digits = &mut room[..2 * piece.len()];
    let Ok(()) = hex::encode_to_slice(piece, digits) else {
        unreachable!()
    };
    push_ascii(digits, out)
}

/// Appends the bytes as hex digits in lower case, with no memory but that of the text.
pub fn write_hex(bytes: &[u8], out: &mut String) -> Result<(), AllocError>
    ensures { Writes (encode_lower bytes.now) result (string_bytes out.old) (string_bytes out.new) }
{
    let mut rest = bytes;
    'pieces: while !rest.is_empty() {
        let (piece, behind) = rest.split_at(rest.len().min(PIECE));
        write_piece(piece, out)?;
        rest = behind;
    }
    Ok(())
}
