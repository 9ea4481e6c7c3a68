//! That the bytes of a stream are framed in one way, whatever the pieces.

ghost use Rattle.std.specs.Prelude.{◌≡◌, ◌++◌, ℕ, List};
ghost use Rattle.std.specs.List.{concat};
ghost use Rattle.rh_pdu.specs.declared.feed.Feed.{Feed};
ghost use Rattle.rh_pdu.specs.Frames.{Framed};
ghost use Rattle.rh_pdu.specs.Cut.{frames_of, rest_of};
ghost use Rattle.rh_pdu.specs.Feeding.{FramerState, Fed, new_framer};
ghost use Rattle.rh_pdu.specs.Pieces.{FedAll, IsTold};

/// The bytes are framed in one way, by the frames that are cut off their front, and that framing
/// goes on with more bytes from the rest that it left.
pub fn one_framing()
    ensures framed { (bytes : List ℕ) → Framed bytes (frames_of bytes) (rest_of bytes) }
    ensures only { (bytes : List ℕ) (frames : List (List ℕ)) (rest : List ℕ)
        → Framed bytes frames rest → (frames ≡ frames_of bytes) × (rest ≡ rest_of bytes) }
    ensures append { (bytes more : List ℕ)
        → (frames_of (bytes ++ more) ≡ frames_of bytes ++ frames_of (rest_of bytes ++ more))
        × (rest_of (bytes ++ more) ≡ rest_of (rest_of bytes ++ more)) }
{}

/// A framer has one answer to a piece, and is one framer after it.
pub fn one_answer()
    ensures { (before : FramerState) (piece : List ℕ) (x y : Feed) (s t : FramerState)
        → Fed x before s piece → Fed y before t piece → (x ≡ y) × (s ≡ t) }
{}

/// Whatever the pieces that a new framer was fed, each to its end: it gave the frames of all their
/// bytes joined, it holds what is behind them, and it is at fault exactly where the header there
/// breaks a rule.
pub fn any_pieces()
    ensures { (pieces frames : List (List ℕ)) (framer : FramerState)
        → FedAll new_framer pieces frames framer → IsTold (concat pieces) frames framer }
{}
