//! What an out proxy puts reads back. These functions do nothing: their contracts are the law.

ghost use Rattle.std.specs.Prelude.{List};
ghost use Rattle.rh_shell.specs.Shells.{begun};
ghost use Rattle.rh_outproxy.specs.declared.out_proxy.TheConstants.{ROOMS};
ghost use Rattle.rh_outproxy.specs.declared.state.OutProxyConfig.{OutProxyConfig};
ghost use Rattle.rh_outproxy.specs.Machine.{rules};
ghost use Rattle.rh_outproxy.specs.OutProxy.{new_proxy};
ghost use Rattle.law_moves.specs.Legible.Legible.{IsLegible};
ghost use Rattle.law_moves.specs.Moves.{Move, started, all_moved};
ghost use Rattle.law_moves.specs.Moving.{Event, after_events, FollowsKeeping};
ghost use Rattle.law_role_outproxy.specs.Legible.{IsConfig, pipe_put};

use law_moves::{roles_move_by_their_rules, what_may_go_reads_back};
use rh_outproxy::state::OutProxyRole;

/// Whatever moves an out proxy makes: where the packets that it took have their sizes and are in
/// range, each PDU and packet that it put is a frame, and is read on its pipe as what it put. There
/// a Ping is passed over.
pub fn what_an_out_proxy_puts_reads_back()
    ensures { (config : OutProxyConfig) (moves : List Move) → IsConfig config
        → IsLegible pipe_put (all_moved rules (started (new_proxy config)) moves) }
{
    what_may_go_reads_back();
}

/// So it is at the node of an out proxy, whatever happens there: what is put by the moves that lead
/// to its role reads back.
pub fn events_read_back_through_an_out_proxy()
    ensures { (config : OutProxyConfig) (events : List Event) → IsConfig config
        → FollowsKeeping rules (IsLegible pipe_put) (started (new_proxy config))
        (after_events rules (begun (new_proxy config) ROOMS) events) }
{
    what_an_out_proxy_puts_reads_back();
    roles_move_by_their_rules::<OutProxyRole>();
}
