//! How many packets wait at a server, and where it has no room. These functions do nothing: their
//! contracts are the laws.

ghost use Rattle.std.specs.Prelude.{List, length, ℕ, ◌+◌, ◌≤◌};
ghost use Rattle.rh_shell.specs.declared.waiting.TheConstants.{OWN_ROOM};
ghost use Rattle.rh_server.specs.declared.out_line.TheConstants.{LINE_ROOM};
ghost use Rattle.law_moves.specs.Moves.{EndMove};
ghost use Rattle.law_role_server_in.specs.Handovers.{passed};
ghost use Rattle.law_peers_forwarding.specs.ServerFull.Filled.{FillsFirst};

use law_peers_room::{acknowledgements_have_their_legs, what_a_server_forwards};
use law_role_server_in::a_server_keeps_few_out_legs;

/// Whatever moves a server makes, allowed or not: where it refuses an acknowledgement for want of
/// room, none of its channel to its destination waits, and fifteen to the client do, or sixteen
/// where it is to an out proxy (MS-RPCH 3.2.1; the room is this profile's).
pub fn fifteen_wait_where_there_is_no_room()
    ensures { (window : ℕ) (moves : List EndMove) → FillsFirst (passed window moves).role }
{
    a_server_keeps_few_out_legs();
    acknowledgements_have_their_legs();
    what_a_server_forwards();
}

/// Whatever moves a server makes, allowed or not: at most twenty packets that are to be forwarded
/// wait there, and eight of its own (MS-RPCH 3.2.1; the rooms are this profile's).
pub fn few_packets_wait_at_a_server()
    ensures { (window : ℕ) (moves : List EndMove)
        → length (passed window moves).role.waiting.due ≤ LINE_ROOM + OWN_ROOM }
{}
