//! When a channel is acknowledged to a server. This function does nothing: its contract is the law.

ghost use Rattle.std.specs.Prelude.{ℕ};
ghost use Rattle.law_peers_moments.specs.Moments.{IsJoined, Moves, Numbers};
ghost use Rattle.law_peers_room.specs.ServerRoom.Answered.{AreAnsweredFirst};

use crate::server_room::acks::an_in_proxy_acknowledges_in_order;
use law_peers_moments::replacements_go_round;
use law_role_client::a_client_replaces_in_channels_one_by_one;
use law_role_client_rows::a_client_writes_in_turn;

/// Where the moves of the roles are joined by legs: of what is read of an is leg, each
/// acknowledgement to the client has the cookie with which the client began an IN channel that the
/// leg's in proxy reads, and of which the server put the answer. Behind as many IN_R2/A2 as there
/// are channels from that of the leg's number to another one, it is this channel or the one before
/// it (MS-RPCH 3.2.1, 3.2.2; successors are this profile's).
pub fn in_channels_are_answered_before_they_are_acknowledged()
    ensures { (numbers : Numbers) (reader : ℕ → ℕ) (moves : Moves)
        → IsJoined numbers reader moves → AreAnsweredFirst numbers reader moves }
{
    a_client_replaces_in_channels_one_by_one();
    a_client_writes_in_turn();
    an_in_proxy_acknowledges_in_order();
    replacements_go_round();
}
