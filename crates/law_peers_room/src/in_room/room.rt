//! An in proxy at a moment of a virtual connection. Its function calls laws that it stands on: its
//! contract is the law.

ghost use Rattle.std.specs.Prelude.{ℕ, ◌≤◌};
ghost use Rattle.law_peers_moments.specs.Moments.{IsMoment, Moves, Numbers, in_behind};
ghost use Rattle.law_peers_room.specs.InRoom.Room.{FewWait, HasRoom};

use crate::in_room::clients::a_client_acknowledges_what_is_near;
use crate::in_room::in_proxies::what_waits_in_an_in_proxy_came_in_turn;
use law_peers_moments::replacements_go_round;

/// At each moment of a virtual connection at most eleven packets wait to be forwarded in an in
/// proxy of a number from 1 on; and none of its rows refuses a packet, whatever it is, for too
/// little room (profile).
pub fn an_in_proxy_has_room()
    ensures few { (numbers : Numbers) (reader : ℕ → ℕ) (moves : Moves)
        → IsMoment numbers reader moves → (m : ℕ) → 1 ≤ m
        → FewWait (in_behind numbers moves m) }
    ensures room { (numbers : Numbers) (reader : ℕ → ℕ) (moves : Moves)
        → IsMoment numbers reader moves → (m : ℕ) → 1 ≤ m
        → HasRoom (in_behind numbers moves m) }
{
    a_client_acknowledges_what_is_near();
    replacements_go_round();
    what_waits_in_an_in_proxy_came_in_turn();
}
