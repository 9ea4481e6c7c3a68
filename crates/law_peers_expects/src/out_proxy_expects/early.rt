//! A server isn't opened early. Its function only calls the laws that it stands on: its contract is
//! the law.

ghost use Rattle.std.specs.Prelude.{ℕ};
ghost use Rattle.law_peers_moments.specs.Moments.{IsJoined, Moves, Numbers, server_behind};
ghost use Rattle.law_peers_expects.specs.OutProxyExpects.Early.{HasRoomForC1, HaveLifetimes, IsNotEarly};

use crate::out_proxy_expects::in_proxies::an_in_proxy_puts_quietly;
use law_role_client::a_client_opens_once;
use law_role_outproxy::{an_out_proxy_forwards_what_came, an_out_proxy_opens_to_the_server_first};

/// At each moment of a virtual connection: where a server has not put CONN/C1, no acknowledgement
/// with a destination came to it, neither to the client nor to an out proxy; and if out proxies
/// tell lifetimes that are in range, that of CONN/A2 has room for CONN/C1 (MS-RPCH 3.2.5).
pub fn no_server_is_early()
    ensures acks { (numbers : Numbers) (reader : ℕ → ℕ) (moves : Moves)
        → IsJoined numbers reader moves
        → IsNotEarly (server_behind numbers moves).passage }
    ensures room { (numbers : Numbers) (reader : ℕ → ℕ) (moves : Moves)
        → IsJoined numbers reader moves → HaveLifetimes numbers
        → HasRoomForC1 (server_behind numbers moves).passage }
{
    a_client_opens_once();
    an_out_proxy_forwards_what_came();
    an_out_proxy_opens_to_the_server_first();
    an_in_proxy_puts_quietly();
}
