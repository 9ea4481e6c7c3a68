//! The edges that an out proxy knows and tells. These functions do nothing: their contracts are the
//! laws.

ghost use Rattle.std.specs.Prelude.{List};
ghost use Rattle.rh_outproxy.specs.declared.state.OutProxyConfig.{OutProxyConfig};
ghost use Rattle.rh_outproxy.specs.Machine.{rules};
ghost use Rattle.rh_outproxy.specs.OutProxy.{new_proxy};
ghost use Rattle.law_moves.specs.Moves.{Move, all_moved, started};
ghost use Rattle.law_role_edges.specs.OutProxies.{KnowsClient, TellsServer};

/// Whatever moves an out proxy makes, allowed or not, where at most one packet opened its channel:
/// the edge up to which it sends to its client is none below any that it was told, by the window in
/// CONN/A1 or OUT_R1/A3 or by an acknowledgement to it that it took. So it holds back no PDU for
/// which its client told room (MS-RPCH 3.2).
pub fn an_out_proxy_knows_what_its_client_told()
    ensures { (config : OutProxyConfig) (moves : List Move)
        → (let p = all_moved rules (started (new_proxy config)) moves in
        KnowsClient config.number p.role p.came) }
{}

/// Whatever moves an out proxy makes, allowed or not: once its first packet to the server was put,
/// and until it loses that leg, one of the packets that it put there tells all of its window that
/// was told, by CONN/A2 or OUT_R1/A4 or by an acknowledgement. So what it takes as told was put
/// (MS-RPCH 3.2).
pub fn an_out_proxy_told_what_its_window_told()
    ensures { (config : OutProxyConfig) (moves : List Move)
        → TellsServer config.number (all_moved rules (started (new_proxy config)) moves) }
{}
