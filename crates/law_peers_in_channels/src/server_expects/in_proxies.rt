//! What an in proxy puts to the server: for which connections, and in which order. These functions
//! do nothing: their contracts are the laws.

ghost use Rattle.std.specs.Prelude.{List};
ghost use Rattle.rh_inproxy.specs.declared.state.InProxyConfig.{InProxyConfig};
ghost use Rattle.rh_inproxy.specs.Machine.{rules};
ghost use Rattle.rh_inproxy.specs.State.{first};
ghost use Rattle.law_moves.specs.Moves.{AreAllowed, Move, all_moved, started};
ghost use Rattle.law_moves.specs.Turns.{AreInTurn};
ghost use Rattle.law_role_inproxy.specs.Putting.Puts.{PutsInOrder};
ghost use Rattle.law_peers_in_channels.specs.ServerExpects.Connecting.{ConnectsForWhatCame};

use law_node_causes::an_in_proxys_leg_comes_up_once;
use law_role_inproxy::an_in_proxy_puts_in_order;

/// Whatever moves an in proxy makes, allowed or not: of each connection, and of all, it put on a
/// leg no more CONN/A2 and CONN/B2 than CONN/B1 came on its ci legs. So each CONN/B2 that it put
/// names the connection of a CONN/B1 that came (MS-RPCH 2.2.4).
pub fn an_in_proxy_connects_as_it_was_asked()
    ensures { (config : InProxyConfig) (moves : List Move)
        → ConnectsForWhatCame (all_moved rules (started (first config)) moves) }
{}

/// Where the moves of an in proxy are allowed and in turn, it puts in order on its is leg: for in
/// turn it puts only on legs that came up, and these are up from then on (MS-RPCH 3.2.3; profile).
pub fn an_in_proxy_in_turn_puts_in_order()
    ensures { (config : InProxyConfig) (moves : List Move)
        → AreAllowed rules (started (first config)) moves
        → AreInTurn rules (first config) moves
        → PutsInOrder config (all_moved rules (started (first config)) moves) }
{
    an_in_proxys_leg_comes_up_once();
    an_in_proxy_puts_in_order();
}
