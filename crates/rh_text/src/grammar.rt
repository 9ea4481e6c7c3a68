//! Texts of lines by any rules: the first line that is none, and that each text is read in one way.

ghost use Rattle.std.specs.Prelude.{◌≡◌, ℕ, List, [], IsTrue, ◌↔◌, MatchOption};
ghost use Rattle.rh_text.specs.Lines.{Rules, TextOf, IsText, FirstBad};

use crate::lines::split_line;

/// What the lines of a text may be.
pub trait Grammar {
    /// Where in a text a line stands.
    type Place: Copy;

    /// What a line says.
    type Line;

    /// At each place, which texts are which line; the place behind it; where a text begins, and
    /// where it may end.
    ghost rules: { Rules Self.Place Self.Line };

    /// The place of the first line.
    fn first_place() -> Self::Place
        ensures { result ≡ rules.first };

    /// Whether a text may end before a line at this place.
    fn may_end(place: Self::Place) -> bool
        ensures { IsTrue result ↔ rules.MayEnd place };

    /// The place behind the text, where it is a line at this place; `None` exactly where it is
    /// none.
    fn judge_line(text: &[u8], place: Self::Place) -> Option<Self::Place>
        ensures { MatchOption result ((line : Self.Line) → ¬ rules.Spells place text.now line)
            (λ next. (line : Self.Line) × rules.Spells place text.now line
            × (next ≡ rules.next place line)) };

    /// A text is one line at most at a place.
    ghost one: { (place : Self.Place) (text : List ℕ) (a b : Self.Line)
        → rules.Spells place text a → rules.Spells place text b → a ≡ b };

    /// No line is spelled by nothing.
    ghost some: { (place : Self.Place) (line : Self.Line) → ¬ rules.Spells place [] line };
}

/// The number of the first line that is none of its place, or is missing, from 1; `None` where the
/// text is one of the grammar. So each text is one of the grammar or has a first bad line.
pub fn first_bad_line<G: Grammar>(text: &[u8]) -> Option<u64>
    ensures { MatchOption result (IsText G.rules text.now)
        (λ number. FirstBad G.rules text.now number × ¬ IsText G.rules text.now) }
{
    let mut rest = text;
    let mut place = G::first_place();
    let mut number: u64 = 1;
    'lines: while !rest.is_empty() || !G::may_end(place) {
        let (line, behind) = split_line(rest);
        let Some(next) = G::judge_line(line, place) else {
            return Some(number);
        };
        rest = behind;
        place = next;
        number += 1;
    }
    None
}

/// A text is that of one list of lines at most, and has one first bad line at most, and never both;
/// that it is one of the two is said by `first_bad_line`. This function does nothing, and its
/// contract is these laws.
pub fn one_text<G: Grammar>()
    ensures lines { (text : List ℕ) (a b : List G.Line)
        → TextOf G.rules text a → TextOf G.rules text b → a ≡ b }
    ensures bad { (text : List ℕ) (n m : ℕ)
        → FirstBad G.rules text n → FirstBad G.rules text m → n ≡ m }
    ensures never_both { (text : List ℕ) (n : ℕ) → IsText G.rules text → ¬ FirstBad G.rules text n }
{}
