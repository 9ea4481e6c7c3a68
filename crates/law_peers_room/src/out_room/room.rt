//! An out proxy at a moment of a virtual connection. Its functions only call the laws that they
//! stand on: their contracts are the laws.

ghost use Rattle.std.specs.Prelude.{ℕ};
ghost use Rattle.law_moves.specs.Wires.{of_leg};
ghost use Rattle.law_role_outproxy.specs.Counted.{os_leg};
ghost use Rattle.law_peers_moments.specs.Moments.{AreJoined, AreMade, Moves, Numbers};
ghost use Rattle.law_peers_moments.specs.Moments.{out_behind, passages, server_behind};
ghost use Rattle.law_peers_room.specs.OutRoom.Room.{AcksFewBetween, HasRoom, PassOneByOne};

use crate::out_room::waiting::what_waits_at_an_out_proxy;
use law_peers_moments::replacements_go_round;
use law_role_server::a_server_opens_once;

/// Where the moves of the roles are joined by legs: at most one CONN/C1 came to an out proxy from
/// the server; and of IN_R1/A3 and IN_R2/A3, of OUT_R1/A1, and of OUT_R1/A5 no more came than went
/// on to the client as A4, A2 and A6, but for one (the replacement of channels is this profile's).
pub fn what_goes_round_passes_an_out_proxy_one_by_one()
    ensures { (numbers : Numbers) (reader : ℕ → ℕ) (moves : Moves) → AreMade numbers moves
        → AreJoined reader (passages numbers moves) → (n : ℕ)
        → PassOneByOne n (out_behind numbers moves n) }
{
    what_waits_at_an_out_proxy();
    replacements_go_round();
    a_server_opens_once();
}

/// Where the moves of the roles are joined by legs, and in each stretch with one IN_R1/A3 or
/// IN_R2/A3 at most of what the server put on the leg of an out proxy at most ten channels are
/// acknowledged to the client: no more than fourteen packets wait at that proxy to be forwarded,
/// and it refuses no packet for want of room (MS-RPCH 2.2.4; the room is this profile's).
pub fn an_out_proxy_has_room_to_forward()
    ensures { (numbers : Numbers) (reader : ℕ → ℕ) (moves : Moves) → AreMade numbers moves
        → AreJoined reader (passages numbers moves) → (n : ℕ)
        → AcksFewBetween (of_leg (os_leg n) (server_behind numbers moves).passage.put)
        → HasRoom (out_behind numbers moves n) }
{
    what_waits_at_an_out_proxy();
    what_goes_round_passes_an_out_proxy_one_by_one();
}
