//! What an in proxy puts is read as it was put. These functions do nothing: their contracts are the
//! law.

ghost use Rattle.std.specs.Prelude.{◌≡◌, List};
ghost use Rattle.rh_inproxy.specs.declared.state.InProxyConfig.{InProxyConfig};
ghost use Rattle.rh_inproxy.specs.State.{IsConfig, first};
ghost use Rattle.rh_inproxy.specs.Machine.{rules, first_node};
ghost use Rattle.law_moves.specs.Legible.Legible.{IsLegible};
ghost use Rattle.law_moves.specs.Moves.{Move, started, all_moved};
ghost use Rattle.law_moves.specs.Moving.{Event, after_events, FollowsKeeping};
ghost use Rattle.law_role_inproxy.specs.Legible.{HasSizes, pipe_put};

use law_moves::{roles_move_by_their_rules, what_may_go_reads_back};
use rh_inproxy::state::InProxyRole;

/// Whatever moves an in proxy makes: as long as all that came to it has its sizes and ranges, each
/// PDU and each packet that it put is read on its pipe as what it put, and a Ping is passed over.
pub fn what_an_in_proxy_puts_reads_back()
    ensures { (config : InProxyConfig) (moves : List Move) → IsConfig config → HasSizes config
        → IsLegible pipe_put (all_moved rules (started (first config)) moves) }
{
    what_may_go_reads_back();
}

/// So it is at the node of an in proxy, whatever happens there: the moves that lead to its role
/// put what reads back.
pub fn events_read_back_through_an_in_proxy()
    ensures { (config : InProxyConfig) (events : List Event) → IsConfig config → HasSizes config
        → FollowsKeeping rules (IsLegible pipe_put) (started (first config))
        (after_events rules (first_node config) events) }
{
    what_may_go_reads_back();
    roles_move_by_their_rules::<InProxyRole>();
}
