//! Words and numbers of a line.

use rh_record::words::split_word;
use rh_text::read_number;

/// The first word, and what stands behind its blank.
pub fn word_of(text: &[u8]) -> (&[u8], &[u8]) {
    match split_word(text) {
        Some(found) => found,
        None => text.split_at(text.len()),
    }
}

/// The first word as text, empty where it is none, and what stands behind its blank.
pub fn text_of(text: &[u8]) -> (&str, &[u8]) {
    let (word, rest) = word_of(text);
    (str::from_utf8(word).unwrap_or(""), rest)
}

/// The number at the front, 0 where there is none, and what stands behind its blank.
pub fn number_of(text: &[u8]) -> (u64, &[u8]) {
    let (word, rest) = word_of(text);
    (read_number(word, 0, u64::MAX).unwrap_or(0), rest)
}

/// A number of 32 bits, as `number_of`.
pub fn long_of(text: &[u8]) -> (u32, &[u8]) {
    let (word, rest) = word_of(text);
    (
        read_number(word, 0, 4_294_967_295).unwrap_or(0) as u32,
        rest,
    )
}

/// A number of 16 bits.
pub fn short_of(text: &[u8]) -> u16 {
    read_number(text, 0, 65_535).unwrap_or(0) as u16
}
