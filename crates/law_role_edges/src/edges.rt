//! The edges that an in proxy knows, and those that it passes on. These functions do nothing: their
//! contracts are the laws.

ghost use Rattle.std.specs.Prelude.{List};
ghost use Rattle.rh_shell.specs.Waiting.{Key};
ghost use Rattle.rh_inproxy.specs.declared.state.InProxyConfig.{InProxyConfig};
ghost use Rattle.rh_inproxy.specs.Machine.{rules};
ghost use Rattle.rh_inproxy.specs.State.{first};
ghost use Rattle.law_moves.specs.Moves.{Move, all_moved, started};
ghost use Rattle.law_role_edges.specs.Edges.{KnowsEdges};
ghost use Rattle.law_role_edges.specs.Passing.{PassesOn};

use law_moves::edges_never_fall;

/// Whatever moves an in proxy makes, allowed or not: the edge up to which it sends to the server is
/// none below any that the server told it, by the window in CONN/B3 or IN_R1/B2 or by an
/// acknowledgement that it took. So it holds back no PDU for which the server told room (MS-RPCH
/// 3.2).
pub fn an_in_proxy_knows_what_the_server_told()
    ensures { (config : InProxyConfig) (moves : List Move)
        → (let p = all_moved rules (started (first config)) moves in KnowsEdges p.role p.came) }
{}

/// Whatever moves an in proxy makes, allowed or not: of the acknowledgements for a channel that it
/// took and does not apply itself, one whose edge is as great as any was put, or waits (MS-RPCH
/// 3.2.1).
pub fn an_in_proxy_passes_edges_on()
    ensures { (config : InProxyConfig) (moves : List Move) (key : Key)
        → PassesOn key (all_moved rules (started (first config)) moves) }
{
    edges_never_fall();
}
