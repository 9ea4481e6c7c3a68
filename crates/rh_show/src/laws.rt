//! That lines are read and packets shown in one way.

ghost use Rattle.std.specs.Prelude.{◌≡◌, ℕ, List};
ghost use Rattle.rh_rts.specs.Commands.{IsBytes};
ghost use Rattle.rh_text.specs.Lines.{TextOf, IsText, FirstBad};
ghost use Rattle.rh_show.specs.Lines.{packets};
ghost use Rattle.rh_show.specs.Shown.{ShowText, ShownAs};

use crate::reader::Packets;

/// Bytes are told as one text, and the packets of a text as one text of lines. A text is that of
/// one list of packets at most, and has one first bad line at most, and never both; that it is one
/// of the two is said by `first_bad_line::<Packets>`, which tells which. This function does
/// nothing, and its contract is these laws.
pub fn one_text()
    ensures told { (bytes : List ℕ) → IsBytes bytes → (text : List ℕ) × ShownAs bytes text }
    ensures shown { (bytes x y : List ℕ) → ShownAs bytes x → ShownAs bytes y → x ≡ y }
    ensures each { (text : List ℕ) (lines : List (List ℕ)) → TextOf packets text lines
        → (shown : List ℕ) × ShowText lines shown }
    ensures lines { (lines : List (List ℕ)) (x y : List ℕ)
        → ShowText lines x → ShowText lines y → x ≡ y }
    ensures packets { (text : List ℕ) (a b : List (List ℕ))
        → TextOf packets text a → TextOf packets text b → a ≡ b }
    ensures bad { (text : List ℕ) (n m : ℕ)
        → FirstBad packets text n → FirstBad packets text m → n ≡ m }
    ensures never_both { (text : List ℕ) (n : ℕ) → IsText packets text → ¬ FirstBad packets text n }
{
    rh_text::one_text::<Packets>();
}
