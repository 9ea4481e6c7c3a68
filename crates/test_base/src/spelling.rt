//! Bytes as lines spell them: `before` and `more` set what stands before those of the lines below,
//! `times` adds to it so many times, and `behind` sets what stands behind.

use crate::numbers::{number_of, short_of};
use rh_text::digits::decode_hex;
use rh_text::{read_hex, write_hex};
use std::alloc::{AllocError, Global};
use std::fmt::{Debug, Display, Write};

/// The most bytes that hex spells.
const MOST_BYTES: usize = 100_000;

/// The value of two digits of hex.
fn byte_of(high: u8, low: u8) -> u8 {
    let mut room = [0];
    let _ = decode_hex(&[high, low], &mut room);
    room[0]
}

/// The first byte that the characters spell, and the characters behind it.
fn first_of(text: &[u8]) -> (u8, &[u8]) {
    match text {
        [b'\\', b'r', behind @ ..] => (b'\r', behind),
        [b'\\', b'n', behind @ ..] => (b'\n', behind),
        [b'\\', b't', behind @ ..] => (b'\t', behind),
        [b'\\', b'x', high, low, behind @ ..] => (byte_of(*high, *low), behind),
        [byte, behind @ ..] => (*byte, behind),
        [] => (0, text),
    }
}

/// Appends what the characters spell.
fn spell_characters(text: &[u8], out: &mut Vec<u8>) -> Result<(), AllocError> {
    let mut rest = text;
    for _ in 0..text.len() {
        if rest.is_empty() {
            break;
        }
        let (byte, behind) = first_of(rest);
        out.push(byte)?;
        rest = behind;
    }
    Ok(())
}

/// Appends the PDU of this many bytes, 16 or more, whose body counts up, and whose integers have
/// their least byte first where `little`.
fn spell_pdu(len: u16, little: bool, out: &mut Vec<u8>) -> Result<(), AllocError> {
    let [low, high] = len.to_le_bytes();
    let (order, first, last) = if little {
        (16, low, high)
    } else {
        (0, high, low)
    };
    let head = [5, 0, 0, 3, order, 0, 0, 0, first, last, 0, 0, 1, 0, 0, 0];
    out.extend_from_slice(&head)?;
    for index in 16..len {
        out.push(index.to_le_bytes()[0])?;
    }
    Ok(())
}

/// Appends the bytes that the text spells: hex; behind `'` the characters themselves, with `\r`,
/// `\n`, `\t` and `\x0a`; behind `<` or `>` the length of a PDU whose integers have their least or
/// their greatest byte first.
fn spell(alloc: Global, text: &[u8], out: &mut Vec<u8>) -> Result<(), AllocError> {
    match text {
        [b'\'', characters @ ..] => spell_characters(characters, out),
        [b'<', len @ ..] => spell_pdu(short_of(len), true, out),
        [b'>', len @ ..] => spell_pdu(short_of(len), false, out),
        _ => match read_hex(alloc, text, MOST_BYTES)? {
            Some(bytes) => out.extend_from_slice(bytes.as_slice()),
            None => Ok(()),
        },
    }
}

/// What stands before and behind the bytes of each line.
#[derive(Drop)]
pub struct Around {
    before: Vec<u8>,
    behind: Vec<u8>,
}

impl Around {
    /// Nothing.
    pub fn new(alloc: Global) -> Around {
        Around {
            before: Vec::new(alloc),
            behind: Vec::new(alloc),
        }
    }

    /// The bytes that the text spells, between those that stand before and behind.
    pub fn bytes(&self, alloc: Global, text: &[u8]) -> Result<Vec<u8>, AllocError> {
        let mut bytes = Vec::new(alloc);
        bytes.extend_from_slice(&self.before)?;
        spell(alloc, text, &mut bytes)?;
        bytes.extend_from_slice(&self.behind)?;
        Ok(bytes)
    }

    /// Appends so many times to what stands before.
    fn repeat(&mut self, alloc: Global, text: &[u8]) -> Result<(), AllocError> {
        let (times, text) = number_of(text);
        for _ in 0..times.min(100_000) {
            spell(alloc, text, &mut self.before)?;
        }
        Ok(())
    }

    /// What the call says of the bytes.
    pub fn call(&mut self, alloc: Global, call: &str, text: &[u8]) -> Result<(), AllocError> {
        match call {
            "before" => {
                self.before = Vec::new(alloc);
                self.behind = Vec::new(alloc);
                spell(alloc, text, &mut self.before)
            }
            "more" => spell(alloc, text, &mut self.before),
            "times" => self.repeat(alloc, text),
            "behind" => spell(alloc, text, &mut self.behind),
            _ => Ok(()),
        }
    }
}

/// Appends one byte, as characters spell it.
fn tell_byte(byte: u8, out: &mut String) -> Result<(), AllocError> {
    match byte {
        b'\r' => out.push_str("\\r"),
        b'\n' => out.push_str("\\n"),
        0x20..=0x7e => out.push(char::from(byte)),
        _ => {
            out.push_str("\\x")?;
            write_hex(&[byte], out)
        }
    }
}

/// Appends the bytes as characters spell them.
pub fn tell_characters(bytes: &[u8], out: &mut String) -> Result<(), AllocError> {
    for byte in bytes {
        tell_byte(*byte, out)?;
    }
    Ok(())
}

/// Appends a value as it is shown for debugging.
pub fn tell<T: Debug + Drop>(value: T, out: &mut String) -> Result<(), AllocError> {
    write!(out, "{value:?}").map_err(|_| AllocError)
}

/// Appends the text of a value, as its callers tell it.
pub fn say<T: Display + Drop>(value: T, out: &mut String) -> Result<(), AllocError> {
    write!(out, "{value}").map_err(|_| AllocError)
}

/// Appends whether bytes are those that are wanted, or else what they are.
pub fn tell_same(bytes: &[u8], wanted: &[u8], out: &mut String) -> Result<(), AllocError> {
    if bytes == wanted {
        return out.push_str(" alike");
    }
    out.push_str(" ")?;
    write_hex(bytes, out)
}
