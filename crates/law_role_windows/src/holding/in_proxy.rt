//! What an in proxy holds. Its function does nothing: its contract is the law.

ghost use Rattle.std.specs.Prelude.{List};
ghost use Rattle.rh_window.specs.Sides.{IsWindow};
ghost use Rattle.rh_inproxy.specs.declared.state.InProxyConfig.{InProxyConfig};
ghost use Rattle.rh_inproxy.specs.State.{first};
ghost use Rattle.rh_inproxy.specs.Machine.{rules, first_node};
ghost use Rattle.law_moves.specs.Moves.{Move, started, all_moved, AreAllowed};
ghost use Rattle.law_moves.specs.Moving.{Event, after_events};
ghost use Rattle.law_role_windows.specs.Held.{Holds};

use law_moves::roles_move_by_their_rules;
use rh_inproxy::InProxyRole;

/// Whatever moves an in proxy makes, and whatever happens at its node: what it holds of the PDUs
/// that came on its current ci leg, in bytes, is at most its window; and so it is of the ci leg
/// behind.
pub fn what_an_in_proxy_holds()
    ensures moves { (config : InProxyConfig) (moves : List Move) → IsWindow config.window
        → AreAllowed rules (started (first config)) moves
        → Holds config.window (all_moved rules (started (first config)) moves).role.line }
    ensures events { (config : InProxyConfig) (events : List Event) → IsWindow config.window
        → Holds config.window (after_events rules (first_node config) events).role.line }
{
    roles_move_by_their_rules::<InProxyRole>();
}
