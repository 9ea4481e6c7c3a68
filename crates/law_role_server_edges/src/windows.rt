//! The edges that a server knows of out proxies, and those that it told in proxies. These functions
//! do nothing: their contracts are the laws.

ghost use Rattle.std.specs.Prelude.{List, ℕ};
ghost use Rattle.rh_server.specs.Servers.{acts, first, rules};
ghost use Rattle.law_moves.specs.Moves.{AreAllowedAtEnd, EndMove, all_end_moved, end_started};
ghost use Rattle.law_role_server_edges.specs.Windows.{KnowsOutProxy, TellsInProxy, TellsWindow};

use law_role_server::{a_server_opens_once, a_server_replaces_out_channels_one_by_one};
use law_role_server_rows::a_server_copies_what_came;

/// Whatever moves a server makes that are allowed: on each os leg that it keeps, the edge up to
/// which it sends there is none below any that it was told there, by the window in CONN/A2 or
/// OUT_R1/A4 or by an acknowledgement that it took. So it holds back no PDU for which an out proxy
/// told room (MS-RPCH 3.2).
pub fn a_server_knows_what_out_proxies_told()
    ensures { (window : ℕ) (moves : List EndMove)
        → AreAllowedAtEnd rules acts (end_started (first window)) moves → (n : ℕ)
        → KnowsOutProxy n (all_end_moved rules acts (end_started (first window)) moves).passage }
{
    a_server_opens_once();
    a_server_replaces_out_channels_one_by_one();
}

/// Whatever moves a server makes, allowed or not: once CONN/B3 or IN_R1/B2 was put on the leg of
/// the current IN channel, one of the packets that were put there tells all that the channel's
/// window told, one of these or an acknowledgement. So what it takes as told was put (MS-RPCH 3.2).
pub fn a_server_told_what_its_window_told()
    ensures { (window : ℕ) (moves : List EndMove)
        → TellsInProxy (all_end_moved rules acts (end_started (first window)) moves).passage }
{
    a_server_copies_what_came();
}

/// Whatever moves a server makes, allowed or not: on each is leg that it keeps, and whose channel
/// is open, CONN/B3 or IN_R1/B2 was put, or is due. So once nothing is due there the window was
/// told (MS-RPCH 3.2.5; of a successor, profile).
pub fn a_server_tells_each_window()
    ensures { (window : ℕ) (moves : List EndMove) (n : ℕ)
        → TellsWindow n (all_end_moved rules acts (end_started (first window)) moves).passage }
{}
