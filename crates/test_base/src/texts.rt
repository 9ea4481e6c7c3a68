//! Texts: `hex`, `decode` and `write`; `number`; `split` and `bad-line`; the words of `side` and
//! `dir`.

use crate::numbers::{number_of, text_of};
use crate::spelling::{Around, tell};
use rh_record::Recording;
use rh_record::recording::{one_reading, one_recording};
use rh_record::words::one_word;
use rh_show::{Packets, one_text};
use rh_text::digits::decode_hex;
use rh_text::{
    Dir, Grammar, Side, first_bad_line, is_hex, read_hex, read_number, split_line, write_hex,
};
use std::alloc::{AllocError, Global};

/// One line or more, each of which begins with `x`.
struct Crosses;

impl Grammar for Crosses {
    ghost use Rattle.std.specs.Prelude.{◌≡◌, MatchOption, slice_get};
    ghost use Rattle.std.proofs.Common.{refl};

    /// 1 before the first line, and 2 behind it.
    type Place = u64;

    type Line = ();

    ghost rules = { record {
      Spells = λ place text line. MatchOption (slice_get text 0) ⊥ (λ first. first ≡ 120);
      next = λ place line. 2;
      first = 1;
      MayEnd = λ place. place ≡ 2;
    } };

    fn first_place() -> u64 {
        1
    }

    fn may_end(place: u64) -> bool {
        place == 2
    }

    fn judge_line(text: &[u8], _place: u64) -> Option<u64> {
        match text {
            [b'x', ..] => Some(2),
            _ => None,
        }
    }

    ghost one = { λ place text a b is also. refl };

    ghost some = { λ place line none. none };
}

/// Appends the number of the first line that the grammar has no place for.
fn bad_line(grammar: &str, bytes: &[u8], out: &mut String) -> Result<(), AllocError> {
    one_text();
    one_word();
    one_reading();
    one_recording();
    match grammar {
        "crosses" => tell(first_bad_line::<Crosses>(bytes), out),
        "packets" => tell(first_bad_line::<Packets>(bytes), out),
        "recording" => tell(first_bad_line::<Recording>(bytes), out),
        _ => out.push_str("?"),
    }
}

/// Appends whether the text is hex of at most so many bytes, and the bytes.
fn hex(alloc: Global, text: &[u8], most: usize, out: &mut String) -> Result<(), AllocError> {
    tell(is_hex(text, most), out)?;
    out.push_str(" ")?;
    tell(read_hex(alloc, text, most)?, out)
}

/// Appends how many bytes the text puts into a room of so many, and these bytes.
fn decoded(text: &[u8], size: usize, out: &mut String) -> Result<(), AllocError> {
    let mut room = [0xee; 400];
    let count = decode_hex(text, &mut room[..size.min(400)]);
    tell(count, out)?;
    match count {
        Some(count) => {
            out.push_str(" ")?;
            tell(&room[..count.min(400)], out)
        }
        None => Ok(()),
    }
}

/// Appends the first line and what is behind it, each as hex.
fn split(text: &[u8], out: &mut String) -> Result<(), AllocError> {
    let (line, behind) = split_line(text);
    write_hex(line, out)?;
    out.push_str(":")?;
    write_hex(behind, out)
}

/// Appends the end that the word is, and its own word.
fn side(word: &[u8], out: &mut String) -> Result<(), AllocError> {
    let side = Side::of_word(word);
    tell(side, out)?;
    match side {
        Some(side) => {
            out.push_str(" ")?;
            out.push_str(side.word())
        }
        None => Ok(()),
    }
}

/// Appends the direction that the word is, and its own word.
fn dir(word: &[u8], out: &mut String) -> Result<(), AllocError> {
    let dir = Dir::of_word(word);
    tell(dir, out)?;
    match dir {
        Some(dir) => {
            out.push_str(" ")?;
            out.push_str(dir.word())
        }
        None => Ok(()),
    }
}

/// Calls with a number or two before the bytes.
fn call_with_numbers(
    alloc: Global,
    around: &Around,
    call: &str,
    text: &[u8],
    out: &mut String,
) -> Result<(), AllocError> {
    let (first, rest) = number_of(text);
    match call {
        "hex" => hex(
            alloc,
            &around.bytes(alloc, rest)?,
            first.min(1000) as usize,
            out,
        ),
        "decode" => decoded(&around.bytes(alloc, rest)?, first.min(1000) as usize, out),
        "number" => {
            let (most, spelled) = number_of(rest);
            tell(
                read_number(&around.bytes(alloc, spelled)?, first, most),
                out,
            )
        }
        _ => out.push_str("?"),
    }
}

/// Answers a call.
pub fn call(
    alloc: Global,
    around: &Around,
    call: &str,
    text: &[u8],
    out: &mut String,
) -> Result<(), AllocError> {
    match call {
        "bad-line" => {
            let (grammar, spelled) = text_of(text);
            bad_line(grammar, &around.bytes(alloc, spelled)?, out)
        }
        "split" => split(&around.bytes(alloc, text)?, out),
        "side" => side(&around.bytes(alloc, text)?, out),
        "dir" => dir(&around.bytes(alloc, text)?, out),
        "write" => {
            out.push_str("x")?;
            write_hex(&around.bytes(alloc, text)?, out)
        }
        _ => call_with_numbers(alloc, around, call, text, out),
    }
}
