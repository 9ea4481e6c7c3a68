//! Why an in proxy refuses what comes. Its function calls a law that it stands on: its contract is
//! the law.

ghost use Rattle.std.specs.Prelude.{List};
ghost use Rattle.rh_inproxy.specs.declared.state.InProxyConfig.{InProxyConfig};
ghost use Rattle.rh_inproxy.specs.Machine.{rules};
ghost use Rattle.rh_inproxy.specs.State.{first};
ghost use Rattle.law_moves.specs.Moves.{AreAllowed, Move, all_moved, started};
ghost use Rattle.law_role_inproxy.specs.Refusing.{RefusesFor};

/// Whatever moves an in proxy makes: where it refuses a packet or an RPC PDU as unexpected, or a
/// packet for its cookie, on a leg that was up and is in use, what came and was put before is so
/// as is said of it.
pub fn what_an_in_proxy_refuses()
    ensures { (config : InProxyConfig) (moves : List Move)
        → AreAllowed rules (started (first config)) moves
        → RefusesFor config.number (all_moved rules (started (first config)) moves) }
{
    crate::an_in_proxy_keeps_order();
    crate::counts::an_in_proxy_opens_and_hands_over_once();
}
