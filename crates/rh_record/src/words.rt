//! The words of a line, one blank between two of them. A word spells one value of its kind at most.

ghost use Rattle.std.specs.Prelude.{◌≡◌, ◌≢◌, ◌<◌, ◌^◌, ◌++◌, ℕ, List, MatchOption};
ghost use Rattle.std.specs.declared.option.Option.{Option};
ghost use Rattle.rh_text.specs.declared.ends.Side.{Side};
ghost use Rattle.rh_text.specs.declared.ends.Dir.{Dir};
ghost use Rattle.rh_text.specs.Ends.{dir_word, side_word};
ghost use Rattle.rh_text.specs.Digits.{IsHex};
ghost use Rattle.rh_text.specs.Numbers.{IsNumber};
ghost use Rattle.rh_record.specs.declared.line.Key.{Key};
ghost use Rattle.rh_line.specs.declared.leg.Leg.{Leg};
ghost use Rattle.rh_line.specs.declared.leg.LegKind.{LegKind};
ghost use Rattle.rh_line.specs.Texts.{letters_of};
ghost use Rattle.rh_record.specs.Words.{Cut, IsInLeg, IsLeg, IsRoute, key_word};

use rh_line::{Leg, LegKind};
use rh_text::read_number;

/// The byte between two words.
pub const BLANK: u8 = b' ';

/// The greatest number of 32 bits, and so of a leg.
pub const MOST_NUMBER: u64 = 4_294_967_295;

/// The first word of a text, and what stands behind its blank; `None` where there is no blank.
#[inline(always)]
pub fn split_word(text: &[u8]) -> Option<(&[u8], &[u8])>
    ensures { MatchOption result ((word rest : List ℕ) → ¬ Cut text.now word rest)
        (λ found. Cut text.now found.0.now found.1.now) }
{
    match text.iter().position(|byte| *byte == BLANK) {
        Some(end) => {
            let (word, behind) = text.split_at(end);
            let (_, rest) = behind.split_at(1);
            Some((word, rest))
        }
        None => None,
    }
}

/// The kind of leg that the letters name, and what stands behind them.
fn split_letters(word: &[u8]) -> Option<(LegKind, &[u8])>
    ensures { MatchOption result ((kind : LegKind) (number : List ℕ)
        → word.now ≢ letters_of kind ++ number)
        (λ found. word.now ≡ letters_of found.0 ++ found.1.now) }
{
    match word {
        [b'c', b'o', number @ ..] => Some((LegKind::ClientOut, number)),
        [b'o', b's', number @ ..] => Some((LegKind::OutServer, number)),
        [b'c', b'i', number @ ..] => Some((LegKind::ClientIn, number)),
        [b'i', b's', number @ ..] => Some((LegKind::InServer, number)),
        _ => None,
    }
}

/// The leg that the word names; `None` where it names none.
pub fn read_leg(word: &[u8]) -> Option<Leg>
    ensures { MatchOption result ((leg : Leg) → ¬ IsLeg leg word.now) (λ leg. IsLeg leg word.now) }
{
    let (kind, number) = split_letters(word)?;
    let number = read_number(number, 1, MOST_NUMBER)? as u32;
    Some(Leg { kind, number })
}

/// The leg between client and in proxy that the word names; `None` where it names none.
pub fn read_in_leg(word: &[u8]) -> Option<Leg>
    ensures { MatchOption result ((leg : Leg) → ¬ IsInLeg leg word.now)
        (λ leg. IsInLeg leg word.now) }
{
    let leg = read_leg(word)?;
    if leg.kind == LegKind::ClientIn {
        Some(leg)
    } else {
        None
    }
}

/// The one leg of a direct recording for `cs`, else the leg that the word names.
#[inline(always)]
pub fn read_route(word: &[u8]) -> Option<Option<Leg>>
    ensures { MatchOption result ((leg : Option Leg) → ¬ IsRoute leg word.now)
        (λ leg. IsRoute leg word.now) }
{
    if word == b"cs".as_slice() {
        return Some(None);
    }
    let leg = read_leg(word)?;
    Some(Some(leg))
}

/// A word spells one value of its kind at most: this function does nothing, and its contract is
/// these laws.
pub fn one_word()
    ensures side { (word : List ℕ) (a b : Side) → word ≡ side_word a → word ≡ side_word b → a ≡ b }
    ensures dir { (word : List ℕ) (a b : Dir) → word ≡ dir_word a → word ≡ dir_word b → a ≡ b }
    ensures key { (word : List ℕ) (a b : Key) → word ≡ key_word a → word ≡ key_word b → a ≡ b }
    ensures route { (word : List ℕ) (a b : Option Leg) → IsRoute a word → IsRoute b word → a ≡ b }
    ensures number { (lowest greatest : ℕ) (word : List ℕ) (a b : ℕ) → greatest < 2 ^ 64
        → IsNumber lowest greatest word a → IsNumber lowest greatest word b → a ≡ b }
    ensures hex { (most : ℕ) (word a b : List ℕ) → IsHex most word a → IsHex most word b → a ≡ b }
{}
