//! Laws of stories. These functions do nothing: their contracts are the laws.

ghost use Rattle.std.specs.Prelude.{◌≡◌, ◌++◌, ℕ, List, []};
ghost use Rattle.std.specs.List.{AllByRecursion, concat};
ghost use Rattle.rh_pdu.specs.Frames.{IsFrame};
ghost use Rattle.rh_story.specs.Items.{held_from, items_from};

/// Whatever the pieces in which bytes come, their items are the same.
pub fn cut_anywhere()
    ensures items { (held bytes more : List ℕ) → items_from held (bytes ++ more)
        ≡ items_from held bytes ++ items_from (held_from held bytes) more }
    ensures held { (held bytes more : List ℕ) → held_from held (bytes ++ more)
        ≡ held_from (held_from held bytes) more }
{}

/// Frames that come one behind the other are the items that are told, and what comes behind them is
/// told as if nothing had come before.
pub fn each_frame_is_told()
    ensures items { (frames : List (List ℕ)) (more : List ℕ) → AllByRecursion IsFrame frames
        → items_from [] (concat frames ++ more) ≡ frames ++ items_from [] more }
    ensures held { (frames : List (List ℕ)) (more : List ℕ) → AllByRecursion IsFrame frames
        → held_from [] (concat frames ++ more) ≡ held_from [] more }
{}
