//! What an out proxy holds. Its function does nothing: its contract is the law.

ghost use Rattle.std.specs.Prelude.{List};
ghost use Rattle.rh_window.specs.Sides.{IsWindow};
ghost use Rattle.rh_shell.specs.Shells.{begun};
ghost use Rattle.rh_outproxy.specs.declared.out_proxy.TheConstants.{ROOMS};
ghost use Rattle.rh_outproxy.specs.declared.state.OutProxyConfig.{OutProxyConfig};
ghost use Rattle.rh_outproxy.specs.OutProxy.{new_proxy};
ghost use Rattle.rh_outproxy.specs.Machine.{rules};
ghost use Rattle.law_moves.specs.Moves.{Move, started, all_moved, AreAllowed};
ghost use Rattle.law_moves.specs.Moving.{Event, after_events};
ghost use Rattle.law_role_windows.specs.Held.{Holds};

use law_moves::roles_move_by_their_rules;
use rh_outproxy::OutProxyRole;

/// Whatever moves an out proxy makes, and whatever happens at its node: what it holds of the PDUs
/// that came from the server, in bytes, is at most its window.
pub fn what_an_out_proxy_holds()
    ensures moves { (config : OutProxyConfig) (moves : List Move) → IsWindow config.window
        → AreAllowed rules (started (new_proxy config)) moves
        → Holds config.window (all_moved rules (started (new_proxy config)) moves).role.line }
    ensures events { (config : OutProxyConfig) (events : List Event) → IsWindow config.window
        → Holds config.window
        (after_events rules (begun (new_proxy config) ROOMS) events).role.line }
{
    roles_move_by_their_rules::<OutProxyRole>();
}
