//! Which RPC PDUs stand on is legs at a moment. Its function calls the laws that it stands on: its
//! contract is the law.

ghost use Rattle.std.specs.Prelude.{ℕ};
ghost use Rattle.law_peers_moments.specs.Moments.{AreJoined, AreMade, Moves, Numbers, passages};
ghost use Rattle.law_peers_in_channels.specs.PdusInTurn.Turns.{ComeBehindHandovers};

use crate::pdus_in_turn::servers::a_server_tells_a_window_behind_handovers;
use law_role_inproxy::an_in_proxy_sends_where_it_was_told;

/// In a virtual connection whose moves are allowed and joined by legs: where an RPC PDU stands on
/// an is leg, IN_R1/A6 came at the server on the leg of each IN channel before the one with which
/// that leg begins. So no RPC PDU of a successor with an is leg of its own passes its in proxy
/// before IN_R1/A6 of its predecessor reached the server (MS-RPCH 3.2.1, 3.2.3; successors are this
/// profile's).
pub fn pdus_of_a_successor_come_behind_its_handover()
    ensures { (numbers : Numbers) (reader : ℕ → ℕ) (moves : Moves) → AreMade numbers moves
        → AreJoined reader (passages numbers moves) → ComeBehindHandovers numbers moves }
{
    a_server_tells_a_window_behind_handovers();
    an_in_proxy_sends_where_it_was_told();
}
