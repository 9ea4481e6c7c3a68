//! Reads the lines of a capture: words with one blank between two of them, of which the first is
//! `seen`.

ghost use Rattle.std.specs.Prelude.{◌≡◌, ◌↔◌, ℕ, List, IsTrue, codes, Err, IfOk, MatchOption};
ghost use Rattle.rh_sig.specs.declared.name.Pipe.{Pipe};
ghost use Rattle.rh_record.specs.Words.{Is, Then, Word};
ghost use Rattle.rh_audit.specs.declared.fault.SeenRefused.TheVariants.{Grammar};
ghost use Rattle.rh_audit.specs.declared.seen.Seen.{Seen};
ghost use Rattle.rh_audit.specs.Pipes.{IsPipe};
ghost use Rattle.rh_audit.specs.Lines.{IsTag, SeenText};

use crate::fault::SeenRefused;
use crate::seen::{Seen, pipe_of_word};
use rh_record::reading::MOST_BYTES;
use rh_record::words::split_word;
use rh_sig::Pipe;
use rh_text::{read_hex, read_number};
use std::alloc::Global;

/// The greatest tag.
pub const MOST_TAG: u64 = u64::MAX;

/// Whether the word is the verb.
fn is_verb(word: &[u8]) -> bool
    ensures { IsTrue result ↔ (word.now ≡ codes "seen") }
{
    word == b"seen".as_slice()
}

/// What stands behind the verb.
fn split_seen(text: &[u8]) -> Option<&[u8]>
    ensures { MatchOption result ((rest : List ℕ) → ¬ Word (codes "seen") (Is rest) text.now)
        (λ rest. Word (codes "seen") (Is rest.now) text.now) }
{
    let (verb, rest) = split_word(text)?;
    if is_verb(verb) { Some(rest) } else { None }
}

/// The tag and the pipe, and the word behind them.
fn split_leg(text: &[u8]) -> Option<(u64, Pipe, &[u8])>
    ensures { MatchOption result ((tag : ℕ) (pipe : Pipe) (last : List ℕ)
        → ¬ Then (IsTag tag) (Then (IsPipe pipe) (Is last)) text.now)
        (λ found. Then (IsTag found.0) (Then (IsPipe found.1) (Is found.2.now)) text.now) }
{
    let (tag, rest) = split_word(text)?;
    let tag = read_number(tag, 1, MOST_TAG)?;
    let (pipe, last) = split_word(rest)?;
    let pipe = pipe_of_word(pipe)?;
    Some((tag, pipe, last))
}

/// Reads a line of a capture: `seen`, the tag, the pipe, and the bytes in hex digits of either
/// case.
///
/// The text is without the LF that ends the line. `Grammar` is answered exactly where it is no such
/// line, and `NoMemory` where there is no memory for the bytes.
pub fn read_seen(alloc: Global, text: &[u8]) -> Result<Seen, SeenRefused>
    ensures line { IfOk result (λ seen. SeenText seen text.now) }
    ensures grammar { result ≡ Err Grammar → (seen : Seen) → ¬ SeenText seen text.now }
{
    let Some(words) = split_seen(text) else {
        return Err(SeenRefused::Grammar);
    };
    let Some((tag, pipe, hex)) = split_leg(words) else {
        return Err(SeenRefused::Grammar);
    };
    match read_hex(alloc, hex, MOST_BYTES)? {
        Some(bytes) => Ok(Seen { tag, pipe, bytes }),
        None => Err(SeenRefused::Grammar),
    }
}
