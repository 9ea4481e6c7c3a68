//! Which OUT channels a client acknowledges. Its function calls a law that it stands on: its
//! contract is the law.

ghost use Rattle.std.specs.Prelude.{List};
ghost use Rattle.rh_http.specs.declared.config.ClientConfig.{ClientConfig};
ghost use Rattle.law_moves.specs.Moves.{EndMove};
ghost use Rattle.law_role_client.specs.Order.{AreAllowedMoves};
ghost use Rattle.law_peers_room.specs.InRoom.Acks.{AcksNear};

use law_role_client_rows::a_client_writes_in_turn;

/// Whatever happens to a client: each acknowledgement with a destination that it put on an IN
/// channel has the cookie that stands for none, or one with which an OUT channel came up; and that
/// one's number is how many OUT_R1/A7 stand before the acknowledgement, there or on IN channels of
/// lower numbers, or one or two more (MS-RPCH 3.2.1.1; successors are this profile's).
pub fn a_client_acknowledges_what_is_near()
    ensures { (config : ClientConfig) (moves : List EndMove) → AreAllowedMoves config moves
        → AcksNear config moves }
{
    a_client_writes_in_turn();
}
