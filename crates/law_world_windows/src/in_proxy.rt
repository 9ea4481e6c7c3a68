//! How an in proxy sends to the server. Its function does nothing: its contract is the law.

ghost use Rattle.std.specs.Prelude.{List};
ghost use Rattle.rh_inproxy.specs.declared.state.InProxyConfig.{InProxyConfig};
ghost use Rattle.rh_inproxy.specs.Machine.{rules};
ghost use Rattle.rh_inproxy.specs.State.{first};
ghost use Rattle.law_moves.specs.Moves.{AreAllowed, Move, all_moved, started};
ghost use Rattle.law_world_windows.specs.Hops.{SendsWithin, is_leg};

/// Whatever moves an in proxy makes: the bytes of RPC PDUs that it put on its is leg are at most
/// what the server told there, and it refuses an acknowledgement as out of range only where that is
/// of more than it put, or of too great a window (MS-RPCH 3.2).
pub fn an_in_proxy_sends_within_the_servers_window()
    ensures { (config : InProxyConfig) (moves : List Move)
        → AreAllowed rules (started (first config)) moves
        → SendsWithin rules (is_leg config.number)
        (all_moved rules (started (first config)) moves) }
{}
