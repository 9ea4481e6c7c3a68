//! How a server answers IN channels. Its function does nothing: its contract is the law.

ghost use Rattle.std.specs.Prelude.{List, ℕ};
ghost use Rattle.rh_server.specs.Servers.{acts, first, rules};
ghost use Rattle.law_moves.specs.Moves.{AreAllowedAtEnd, EndMove, all_end_moved, end_started};
ghost use Rattle.law_role_server.specs.Counted.Answering.{AreAnswered, BeginOnce, EndOnce};

use crate::a_server_takes_in_order;

/// Whatever moves a server makes, allowed or not: each IN_R1/A2 that came has its IN_R1/A3 put, or
/// due, or its channel waits until the one before is current; each IN_R2/A2 has its IN_R2/A3 put,
/// or due. CONN/B2 and IN_R1/A2 came once at most on each is leg; and so did IN_R1/A6 and END/A2,
/// where each move was allowed.
pub fn a_server_answers_each_in_channel_once()
    ensures answers { (window : ℕ) (moves : List EndMove)
        → AreAnswered (all_end_moved rules acts (end_started (first window)) moves).passage }
    ensures once { (window : ℕ) (moves : List EndMove)
        → BeginOnce (all_end_moved rules acts (end_started (first window)) moves).passage }
    ensures ended { (window : ℕ) (moves : List EndMove)
        → AreAllowedAtEnd rules acts (end_started (first window)) moves
        → EndOnce (all_end_moved rules acts (end_started (first window)) moves).passage }
{
    a_server_takes_in_order();
}
