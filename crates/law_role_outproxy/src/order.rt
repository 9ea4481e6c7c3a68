//! The law of streams of an out proxy. These functions do nothing: their contracts are the law.

ghost use Rattle.std.specs.Prelude.{List};
ghost use Rattle.rh_shell.specs.Shells.{begun};
ghost use Rattle.rh_outproxy.specs.declared.out_proxy.TheConstants.{ROOMS};
ghost use Rattle.rh_outproxy.specs.declared.state.OutProxyConfig.{OutProxyConfig};
ghost use Rattle.rh_outproxy.specs.OutProxy.{new_proxy};
ghost use Rattle.rh_outproxy.specs.Machine.{rules};
ghost use Rattle.law_moves.specs.Moves.{Move, started, all_moved, AreAllowed};
ghost use Rattle.law_moves.specs.Moving.{Event, after_events, FollowsKeeping};
ghost use Rattle.law_role_outproxy.specs.Order.{KeepsOrder};

use law_moves::roles_move_by_their_rules;
use rh_outproxy::state::OutProxyRole;

/// Whatever comes on its legs, an out proxy keeps the law of a proxy. What it put to the client,
/// and then what it holds, is what it took from the server. Behind the handover mark it puts
/// nothing, and behind END no RPC PDU; each of them goes only where it came, behind all PDUs.
pub fn an_out_proxy_keeps_order()
    ensures { (config : OutProxyConfig) (moves : List Move)
        → AreAllowed rules (started (new_proxy config)) moves
        → KeepsOrder config.number (all_moved rules (started (new_proxy config)) moves) }
{}

/// So it is at the node of an out proxy, whatever happens there: the moves that lead to its role
/// keep order.
pub fn events_keep_order_through_an_out_proxy()
    ensures { (config : OutProxyConfig) (events : List Event)
        → FollowsKeeping rules (KeepsOrder config.number) (started (new_proxy config))
        (after_events rules (begun (new_proxy config) ROOMS) events) }
{
    roles_move_by_their_rules::<OutProxyRole>();
}
