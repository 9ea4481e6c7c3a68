//! What an in proxy puts before its client is open. Its function does nothing: its contract is the
//! law.

ghost use Rattle.std.specs.Prelude.{List};
ghost use Rattle.rh_inproxy.specs.declared.state.InProxyConfig.{InProxyConfig};
ghost use Rattle.rh_inproxy.specs.Machine.{rules};
ghost use Rattle.rh_inproxy.specs.State.{first};
ghost use Rattle.law_moves.specs.Moves.{Move, all_moved, started};
ghost use Rattle.law_peers_expects.specs.OutProxyExpects.Early.{PutsQuietly};

/// Whatever moves an in proxy makes, allowed or not: as long as CONN/B1 and Pings alone came from
/// the client, it puts no acknowledgement with a destination, nor CONN/A2 (MS-RPCH 3.2.1, 3.2.3).
pub fn an_in_proxy_puts_quietly()
    ensures { (config : InProxyConfig) (moves : List Move)
        → PutsQuietly (all_moved rules (started (first config)) moves) }
{}
