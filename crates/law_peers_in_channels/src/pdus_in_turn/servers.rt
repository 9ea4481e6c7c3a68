//! When a server tells its window to the successor of an IN channel. Its function calls the laws
//! that it stands on: its contract is the law.

ghost use Rattle.std.specs.Prelude.{List, ℕ};
ghost use Rattle.rh_server.specs.Servers.{acts, first, rules};
ghost use Rattle.law_moves.specs.Moves.{AreAllowedAtEnd, EndMove, end_started};
ghost use Rattle.law_role_server_in.specs.Handovers.{passed};
ghost use Rattle.law_peers_in_channels.specs.PdusInTurn.Telling.{TellsBehind};

use law_role_server::a_server_takes_in_order;
use law_role_server_in::what_a_server_refuses_of_in_channels;
use law_role_server_rows::a_server_answers_in_proxies_in_order;

/// Whatever moves a server makes that are allowed: where it told its window on an is leg, by
/// CONN/B3 or IN_R1/B2, IN_R1/A6 came on each leg below it that came up, so on each on which a
/// channel began (MS-RPCH 3.2.1; successors are this profile's).
pub fn a_server_tells_a_window_behind_handovers()
    ensures { (window : ℕ) (moves : List EndMove)
        → AreAllowedAtEnd rules acts (end_started (first window)) moves
        → TellsBehind moves (passed window moves) }
{
    a_server_answers_in_proxies_in_order();
    a_server_takes_in_order();
    what_a_server_refuses_of_in_channels();
}
