//! The grammars of recordings: which line may stand where.

ghost use Rattle.std.specs.Prelude.{◌≡◌, ℕ, List};
ghost use Rattle.rh_text.specs.Lines.{TextOf, IsText, FirstBad};
ghost use Rattle.rh_record.specs.declared.line.Line.{Line};
ghost use Rattle.rh_record.specs.Recording.{LineText};
ghost use Rattle.rh_record.specs.Places.{recording};

use crate::line::Line;
use crate::place::Place;
use crate::reading::{MOST_BYTES, Parsed, parse};
use rh_text::{Grammar, is_hex, one_text};

/// The grammar of recordings, direct ones and those of roles.
#[derive(Clone, Copy, Debug)]
pub struct Recording;

impl Grammar for Recording {
    ghost use Rattle.rh_record.specs.Places.{recording};
    ghost use Rattle.rh_record.specs.Readings.{one_line_at, no_empty};

    type Place = Place;

    type Line = Line;

    ghost rules = { recording };

    fn first_place() -> Place {
        Place::Header
    }

    fn may_end(place: Place) -> bool {
        !matches!(place, Place::Header)
    }

    /// Reads no bytes of a give, and takes no memory.
    fn judge_line(text: &[u8], place: Place) -> Option<Place> {
        match parse(text)? {
            Parsed::Plain(line) => place.behind(&line),
            Parsed::Give { hex, .. } => {
                if is_hex(hex, MOST_BYTES) {
                    place.behind_give()
                } else {
                    None
                }
            }
        }
    }

    ghost one = { one_line_at };

    ghost some = { no_empty };
}

/// A text spells one line at most: this function does nothing, and its contract is that law.
pub fn one_reading()
    ensures { (text : List ℕ) (a b : Line) → LineText a text → LineText b text → a ≡ b }
{}

/// A text is the text of one recording at most, and has one first bad line at most, and never both:
/// this function does nothing, and its contract is these laws. That it is one of the two is said by
/// `first_bad_line::<Recording>`, which tells which.
pub fn one_recording()
    ensures lines { (text : List ℕ) (a b : List Line) → TextOf recording text a
        → TextOf recording text b → a ≡ b }
    ensures bad { (text : List ℕ) (n m : ℕ) → FirstBad recording text n → FirstBad recording text m
        → n ≡ m }
    ensures never_both { (text : List ℕ) (n : ℕ) → IsText recording text
        → ¬ FirstBad recording text n }
{
    one_text::<Recording>();
}
