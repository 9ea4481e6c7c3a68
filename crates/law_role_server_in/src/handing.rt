//! How many IN channels a server opens, by the handovers that came, and how many os legs it keeps.
//! Its functions do nothing: their contracts are the laws.

ghost use Rattle.std.specs.Prelude.{List, length, ℕ, ◌+◌, ◌≤◌};
ghost use Rattle.rh_server.specs.Servers.{acts, first, rules};
ghost use Rattle.law_moves.specs.Moves.{AreAllowedAtEnd, EndMove, end_started};
ghost use Rattle.law_role_server.specs.Counted.Counting.{in_came, is_in_r1_a6};
ghost use Rattle.law_role_server_in.specs.Handovers.{TwoAreOpen, answers, passed};

use law_role_server::a_server_answers_each_in_channel_once;

/// Whatever moves a server makes that are allowed, the IN_R1/A3 that were put or are due are at
/// most one more than the IN_R1/A6 that came on its is legs, and at least as many.
///
/// At a front of the moves the channel of a leg had opened where one had begun there, and no fewer
/// IN_R1/A3 were put or due than IN_R1/A2 had come. Of three is legs whose channels had opened,
/// each at some front of the moves, and on which no IN_R1/A6 came, two are the same.
pub fn handovers_make_room_for_answers()
    ensures most { (window : ℕ) (moves : List EndMove)
        → AreAllowedAtEnd rules acts (end_started (first window)) moves
        → answers (passed window moves) ≤ in_came is_in_r1_a6 (passed window moves) + 1 }
    ensures least { (window : ℕ) (moves : List EndMove)
        → AreAllowedAtEnd rules acts (end_started (first window)) moves
        → in_came is_in_r1_a6 (passed window moves) ≤ answers (passed window moves) }
    ensures two { (window : ℕ) (moves : List EndMove)
        → AreAllowedAtEnd rules acts (end_started (first window)) moves
        → TwoAreOpen window moves }
{
    a_server_answers_each_in_channel_once();
}

/// Whatever moves a server makes, allowed or not, it keeps at most four os legs.
pub fn a_server_keeps_few_out_legs()
    ensures { (window : ℕ) (moves : List EndMove)
        → length (passed window moves).role.outs ≤ 4 }
{}
