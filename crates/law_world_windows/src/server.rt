//! How a server receives from in proxies, and sends to out proxies. These functions do nothing:
//! their contracts are the laws.

ghost use Rattle.std.specs.Prelude.{ℕ, List};
ghost use Rattle.rh_window.specs.Sides.{IsWindow};
ghost use Rattle.rh_server.specs.Servers.{acts, first, rules};
ghost use Rattle.law_moves.specs.Moves.{AreAllowedAtEnd, EndMove, all_end_moved, end_started};
ghost use Rattle.law_world_windows.specs.Holding.{held_by_server};
ghost use Rattle.law_world_windows.specs.Hops.{HasRoomOn, ReceivesWithin, SendsWithin, is_leg, os_leg};

use law_role_server::a_server_takes_in_order;
use law_role_windows::what_a_server_holds;

/// Whatever happens to a server: on each is leg it refuses a PDU for its window only where that
/// ends behind all that it told there; and each acknowledgement that it put there is of no more
/// than came, with a window that is none too great. All that it told there is within its window,
/// which begins behind what it passed on (MS-RPCH 3.2).
pub fn a_server_receives_within_its_window()
    ensures refused { (window n : ℕ) (moves : List EndMove) → IsWindow window
        → AreAllowedAtEnd rules acts (end_started (first window)) moves
        → ReceivesWithin rules (is_leg n)
        (all_end_moved rules acts (end_started (first window)) moves).passage }
    ensures told { (window n : ℕ) (moves : List EndMove) → IsWindow window
        → AreAllowedAtEnd rules acts (end_started (first window)) moves
        → HasRoomOn window (held_by_server n) (is_leg n)
        (all_end_moved rules acts (end_started (first window)) moves).passage }
{
    what_a_server_holds();
    a_server_takes_in_order();
}

/// Whatever happens to a server: the bytes of RPC PDUs that it put on an os leg are at most what
/// the out proxy told there, and it refuses an acknowledgement as out of range only where that is
/// of more than it put, or of too great a window (MS-RPCH 3.2).
pub fn a_server_sends_within_the_proxys_window()
    ensures { (window n : ℕ) (moves : List EndMove)
        → AreAllowedAtEnd rules acts (end_started (first window)) moves
        → SendsWithin rules (os_leg n)
        (all_end_moved rules acts (end_started (first window)) moves).passage }
{}
