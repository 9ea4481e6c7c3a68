//! To a server no Ping goes first. Its function does nothing: its contract is the law.

ghost use Rattle.std.specs.Prelude.{ℕ};
ghost use Rattle.law_moves.specs.Wires.{of_leg};
ghost use Rattle.law_role_inproxy.specs.Counted.{is_leg};
ghost use Rattle.law_role_outproxy.specs.Counted.{os_leg};
ghost use Rattle.law_peers_moments.specs.Expecting.{HasNoPingFirst};
ghost use Rattle.law_peers_moments.specs.Moments.{AreMade, Moves, Numbers, in_behind, out_behind};

use crate::server_expects::in_proxies::an_in_proxy_in_turn_puts_in_order;
use law_role_outproxy::an_out_proxy_opens_to_the_server_first;

/// The first packet that an out proxy put to the server is no Ping, nor is the first one that an in
/// proxy put there (profile).
pub fn no_ping_goes_first_to_a_server()
    ensures outs { (numbers : Numbers) (moves : Moves) → AreMade numbers moves
        → (n : ℕ) → HasNoPingFirst (of_leg (os_leg n) (out_behind numbers moves n).put) }
    ensures ins { (numbers : Numbers) (moves : Moves) → AreMade numbers moves
        → (n : ℕ) → HasNoPingFirst (of_leg (is_leg n) (in_behind numbers moves n).put) }
{
    an_in_proxy_in_turn_puts_in_order();
    an_out_proxy_opens_to_the_server_first();
}
