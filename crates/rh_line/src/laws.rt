//! Laws of lines, over any sequence of calls. These functions do nothing: their contracts are the
//! laws.

ghost use Rattle.std.specs.Prelude.{◌≡◌, ◌++◌, ◌||◌, ℕ, List, [], true};
ghost use Rattle.rh_window.specs.Sides.{IsWindow};
ghost use Rattle.rh_line.specs.declared.which.Which.{Which};
ghost use Rattle.rh_line.specs.declared.line_take.LineTake.TheVariants.{Ended};
ghost use Rattle.rh_line.specs.Lines.{Line, IsLine, channel_of, first_line, is_ended, take_answer};
ghost use Rattle.rh_line.specs.Histories.{Call, CanCall, CanRun, IsWithin, after, History, begun, goes, history, joined, line_behind, some_ended, IsInOrder};

/// Channel by channel, what was taken is a front of what was admitted, whatever the calls were and
/// whatever they answered: a later channel gives nothing before all of the earlier one was taken.
#[tactic(auto, using(crate::proofs::Orders::step_in_order, crate::proofs::Orders::all_in_order))]
pub fn lines_keep_order()
    ensures step { (h : History) (call : Call) → IsInOrder h → IsInOrder (goes h call) }
    ensures run { (calls : List Call) (size : ℕ) → IsInOrder (history (begun size) calls) }
{}

/// What came in that order was taken, or is held. Where `take` answers `Ended`, all that was
/// admitted up to the current channel was taken, and END came on that channel or on one before it.
#[tactic(auto, using(crate::proofs::Orders::all_there, crate::proofs::Orders::ended_all))]
pub fn all_was_taken_or_is_held()
    ensures all { (h : History) → IsInOrder h → joined h.past ++ (h.current ++ h.next)
        ≡ h.taken ++ (h.line.current.pdus ++ h.line.next.pdus) }
    ensures ended { (h : History) → IsInOrder h → take_answer h.line ≡ Ended
        → (h.taken ≡ joined h.past ++ h.current)
        × ((some_ended h.past || h.line.current.ended) ≡ true) }
{}

/// The line of a history is the line behind its calls, as the contracts of `RecvLine` tell each.
#[tactic(auto, using(crate::proofs::Orders::run_line))]
pub fn histories_are_of_lines()
    ensures { (calls : List Call) (h : History)
        → (history h calls).line ≡ line_behind h.line calls }
{}

/// Whatever the calls are, a line goes on holding of each channel what its window counts as
/// received and not released.
#[tactic(auto, using(crate::proofs::Sound::step_sound, crate::proofs::Sound::run_sound))]
pub fn lines_keep_to_their_windows()
    ensures first { (size : ℕ) → IsWindow size → IsLine (first_line size) }
    ensures step { (line : Line) (call : Call) → IsLine line → CanCall line call
        → IsLine (after line call) }
    ensures run { (calls : List Call) (line : Line) → IsLine line → CanRun line calls
        → IsLine (line_behind line calls) }
{}

/// That is within what the sender was told, and so within the window that was advertised
/// (MS-RPCH 3.2).
#[tactic(auto, using(crate::proofs::Sound::within))]
pub fn held_bytes_are_within_windows()
    ensures { (line : Line) (which : Which) → IsLine line
        → IsWithin (channel_of line which) line.size }
{}

/// That END came on a channel which is current, or was, is kept whatever the calls are.
#[tactic(auto, using(crate::proofs::Sound::ended_kept))]
pub fn ends_are_kept()
    ensures { (line : Line) (call : Call) → is_ended line ≡ true
        → is_ended (after line call) ≡ true }
{}
