//! What an out proxy passes on to its client. These functions do nothing: their contracts are the
//! laws.

ghost use Rattle.std.specs.Prelude.{List};
ghost use Rattle.rh_shell.specs.Waiting.{Key};
ghost use Rattle.rh_outproxy.specs.declared.state.OutProxyConfig.{OutProxyConfig};
ghost use Rattle.rh_outproxy.specs.Machine.{rules};
ghost use Rattle.rh_outproxy.specs.OutProxy.{new_proxy};
ghost use Rattle.law_moves.specs.Moves.{AreAllowed, Move, all_moved, started};
ghost use Rattle.law_role_edges.specs.Forwarding.{ForwardsAll, PassesToClient};

use law_moves::edges_never_fall;

/// Whatever moves an out proxy makes that it may, as long as the leg from its client was not lost:
/// of the acknowledgements for a channel that it took and that are not for itself, one whose edge
/// is as great as any was put, or waits (MS-RPCH 3.2.1).
pub fn an_out_proxy_passes_edges_on()
    ensures { (config : OutProxyConfig) (moves : List Move) (key : Key)
        → AreAllowed rules (started (new_proxy config)) moves
        → PassesToClient key (all_moved rules (started (new_proxy config)) moves) }
{
    edges_never_fall();
}

/// So long it put to its client, or has waiting, a packet for each that came from the server to be
/// passed on: CONN/C2 for CONN/C1, IN_R1/A4 for IN_R1/A3, IN_R2/A4 for IN_R2/A3, OUT_R1/A2 for A1,
/// and A6 for A5 (profile).
pub fn an_out_proxy_forwards_all_that_came()
    ensures { (config : OutProxyConfig) (moves : List Move)
        → AreAllowed rules (started (new_proxy config)) moves
        → ForwardsAll config.number (all_moved rules (started (new_proxy config)) moves) }
{}
