//! Proxies tell the server of each channel that began. These functions do nothing: their contracts
//! are the laws.

ghost use Rattle.std.specs.Prelude.{List};
ghost use Rattle.rh_inproxy.specs.declared.state.InProxyConfig.{InProxyConfig};
ghost use Rattle.rh_inproxy.specs.Machine as in_proxy;
ghost use Rattle.rh_inproxy.specs.State.{first};
ghost use Rattle.rh_outproxy.specs.declared.state.OutProxyConfig.{OutProxyConfig};
ghost use Rattle.rh_outproxy.specs.Machine as out_proxy;
ghost use Rattle.rh_outproxy.specs.OutProxy.{new_proxy};
ghost use Rattle.law_moves.specs.Moves.{AreAllowed, Move, all_moved, started};
ghost use Rattle.law_role_edges.specs.Openings.{JoinsAll, OpensAll, TellsOfChannel};

/// Whatever moves an in proxy makes, allowed or not: it put CONN/B2 as often as CONN/B1 came on its
/// ci legs, and of each successor, and of all, IN_R1/A2 as often as IN_R1/A1 came on the first one;
/// but for one that is due as its first packet: the is leg is not up, or nothing was put there
/// (profile).
pub fn an_in_proxy_tells_of_its_first_channel()
    ensures { (config : InProxyConfig) (moves : List Move)
        → OpensAll config.number (all_moved in_proxy.rules (started (first config)) moves) }
{}

/// Whatever moves it makes, allowed or not: of each successor, and of all, it put IN_R2/A2 as often
/// as IN_R1/A1 came on ci legs behind the first one, but for one that waits for its turn; and
/// IN_R1/A2 and IN_R2/A2 together as often as IN_R1/A1 came on all ci legs, but for those that are
/// due (profile).
pub fn an_in_proxy_tells_of_later_channels()
    ensures { (config : InProxyConfig) (moves : List Move)
        → JoinsAll config.number (all_moved in_proxy.rules (started (first config)) moves) }
{}

/// Whatever moves an out proxy makes that it may, where at most one packet opened its channel, and
/// as long as its leg to the server was not lost: it put CONN/A2 as often as CONN/A1 came from its
/// client, and OUT_R1/A4 as often as OUT_R1/A3, but for one that is due as its first packet there
/// (profile).
pub fn an_out_proxy_tells_of_its_channel()
    ensures { (config : OutProxyConfig) (moves : List Move)
        → AreAllowed out_proxy.rules (started (new_proxy config)) moves
        → TellsOfChannel config.number
        (all_moved out_proxy.rules (started (new_proxy config)) moves) }
{}
