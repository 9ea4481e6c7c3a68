//! The law of streams through an in proxy. These functions do nothing: their contracts are the law.

ghost use Rattle.std.specs.Prelude.{◌≡◌, List};
ghost use Rattle.rh_inproxy.specs.declared.state.InProxyConfig.{InProxyConfig};
ghost use Rattle.rh_inproxy.specs.State.{first};
ghost use Rattle.rh_inproxy.specs.Machine.{rules, first_node};
ghost use Rattle.law_moves.specs.Moves.{Move, started, all_moved, AreAllowed};
ghost use Rattle.law_moves.specs.Moving.{Event, after_events, FollowsKeeping};
ghost use Rattle.law_role_inproxy.specs.Order.{KeepsOrder};

use law_moves::roles_move_by_their_rules;
use rh_inproxy::state::InProxyRole;

/// Whatever moves an in proxy makes: all PDUs that came on its ci legs, in order of their numbers,
/// were put on the is leg or are held there; nothing was put behind IN_R1/A6, and no PDU or END
/// behind END/A2.
pub fn an_in_proxy_keeps_order()
    ensures { (config : InProxyConfig) (moves : List Move)
        → AreAllowed rules (started (first config)) moves
        → KeepsOrder config.number (all_moved rules (started (first config)) moves) }
{}

/// So it is at the node of an in proxy, whatever happens there: the moves that lead to its role
/// keep order.
pub fn events_keep_order_through_an_in_proxy()
    ensures { (config : InProxyConfig) (events : List Event)
        → FollowsKeeping rules (KeepsOrder config.number) (started (first config))
        (after_events rules (first_node config) events) }
{
    roles_move_by_their_rules::<InProxyRole>();
}
