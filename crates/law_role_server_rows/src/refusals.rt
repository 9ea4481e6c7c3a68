//! What must have passed where a server refuses a packet. Its function does nothing: its contract
//! is the law.

ghost use Rattle.std.specs.Prelude.{List, ℕ};
ghost use Rattle.rh_server.specs.Servers.{acts, first, rules};
ghost use Rattle.law_moves.specs.Moves.{AreAllowedAtEnd, EndMove, all_end_moved, end_started};
ghost use Rattle.law_role_server_rows.specs.Refusing.Refusing.{RefusesFor};

use law_role_server::{a_server_opens_once, a_server_replaces_out_channels_one_by_one};

/// Whatever moves a server makes that are allowed, its logs tell why it refuses a packet. As
/// unexpected it refuses CONN/A2 and CONN/B2 only behind others on the leg, on another leg than
/// the first, or where one came; OUT_R1/A4 only behind others, on another leg than the one behind
/// the writing channel's, or where each OUT_R1/A1 has its answer; OUT_R1/A8 only first, for another
/// destination, or where each OUT_R1/A5 has its answer; Ack only first, or where no channel began
/// on the leg; AckTo only first or for another destination; and PingTraffic only first. Where it
/// refuses a cookie, what came is another one than was expected, and that of a connection or of an
/// OUT channel came before.
pub fn what_a_server_refuses()
    ensures { (window : ℕ) (moves : List EndMove)
        → AreAllowedAtEnd rules acts (end_started (first window)) moves
        → RefusesFor (all_end_moved rules acts (end_started (first window)) moves).passage }
{
    a_server_opens_once();
    a_server_replaces_out_channels_one_by_one();
}
