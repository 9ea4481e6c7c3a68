//! What waits at an out proxy to be forwarded. Its function does nothing: its contract is the law.

ghost use Rattle.std.specs.Prelude.{List};
ghost use Rattle.rh_outproxy.specs.declared.state.OutProxyConfig.{OutProxyConfig};
ghost use Rattle.rh_outproxy.specs.Machine.{rules};
ghost use Rattle.rh_outproxy.specs.OutProxy.{new_proxy};
ghost use Rattle.law_moves.specs.Moves.{Move, all_moved, started};
ghost use Rattle.law_peers_room.specs.OutRoom.Waits.{WaitsInOrder};

/// Whatever moves an out proxy makes, allowed or not: its room for what is to be forwarded is that
/// of the profile, and only CONN/C2, IN_R1/A4, IN_R2/A4, OUT_R1/A2, OUT_R1/A6 and acknowledgements
/// to the client wait there. Of the former, those that wait and those that went to the client are
/// together no more than CONN/C1, IN_R1/A3 and IN_R2/A3, OUT_R1/A1 and OUT_R1/A5 came from the
/// server. The acknowledgements that wait are for different channels, and for each such channel one
/// came behind as many IN_R1/A3 and IN_R2/A3 as A4 went to the client.
pub fn what_waits_at_an_out_proxy()
    ensures { (config : OutProxyConfig) (moves : List Move)
        → WaitsInOrder config.number (all_moved rules (started (new_proxy config)) moves) }
{}
