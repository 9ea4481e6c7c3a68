//! How many answers a server puts before an acknowledgement. This function does nothing: its
//! contract is the law.

ghost use Rattle.std.specs.Prelude.{List, ℕ};
ghost use Rattle.law_moves.specs.Moves.{EndMove};
ghost use Rattle.law_peers_forwarding.specs.Passing.{FewPass};

/// Whatever moves a server makes, allowed or not, if one answer to IN_R1/A2 and IN_R2/A2 at most is
/// ever due, and the lifetimes of its OUT channels have room for all that waits and 312 bytes more:
/// while an acknowledgement to the client waits, the server puts the answer that was due when it
/// came, one more, and those behind the wish for a successor of the channel that wrote then. For
/// where the meter of a channel refuses an acknowledgement, the server has wished for a successor:
/// OUT_R1/A1 was put there, or waits behind what was due before; unless that channel has the last
/// number that there is (MS-RPCH 3.2.1; the meters and the replacement of channels are this
/// profile's).
pub fn few_answers_pass_an_acknowledgement()
    ensures { (window : ℕ) (front later : List EndMove) → FewPass window front later }
{}
