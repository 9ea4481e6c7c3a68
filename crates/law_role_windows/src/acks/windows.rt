//! How the window of an IN channel goes on to the client. These functions do nothing: their
//! contracts are the laws.

ghost use Rattle.std.specs.Prelude.{List, ℕ};
ghost use Rattle.rh_line.specs.declared.leg.LegKind.TheVariants.{InServer, OutServer};
ghost use Rattle.rh_inproxy.specs.declared.state.InProxyConfig.{InProxyConfig};
ghost use Rattle.rh_inproxy.specs.Machine.{rules as in_rules};
ghost use Rattle.rh_inproxy.specs.State.{first as first_in};
ghost use Rattle.rh_outproxy.specs.declared.state.OutProxyConfig.{OutProxyConfig};
ghost use Rattle.rh_outproxy.specs.Machine.{rules as out_rules};
ghost use Rattle.rh_outproxy.specs.OutProxy.{new_proxy};
ghost use Rattle.rh_server.specs.Servers.{acts, first as first_server, rules as server_rules};
ghost use Rattle.law_moves.specs.Moves.{EndMove, Move, all_end_moved, all_moved};
ghost use Rattle.law_moves.specs.Moves.{end_started, started};
ghost use Rattle.law_role_windows.specs.Acknowledging.Windows.{ByConnB2, ByConnC1, ByConnC2, TellsFrom, TellsOwn};
ghost use Rattle.law_role_windows.specs.Acknowledging.Windows.{ByInR1A2, ByInR1A3, ByInR1A4};

/// Whatever moves an in proxy makes, allowed or not: each window that it told by CONN/B2 or by
/// IN_R1/A2 is the one that it was made with (MS-RPCH 3.2).
pub fn an_in_proxy_tells_its_window()
    ensures connected { (config : InProxyConfig) (moves : List Move)
        → TellsOwn ByConnB2 config.window (all_moved in_rules (started (first_in config)) moves) }
    ensures replaced { (config : InProxyConfig) (moves : List Move)
        → TellsOwn ByInR1A2 config.window (all_moved in_rules (started (first_in config)) moves) }
{}

/// Whatever happens to a server: each window that it told by CONN/C1 is one that an in proxy told
/// by CONN/B2, and each by IN_R1/A3 one that came by IN_R1/A2 (MS-RPCH 3.2).
pub fn a_server_tells_what_it_was_told()
    ensures connected { (window : ℕ) (moves : List EndMove)
        → TellsFrom ByConnB2 InServer ByConnC1
        (all_end_moved server_rules acts (end_started (first_server window)) moves).passage }
    ensures replaced { (window : ℕ) (moves : List EndMove)
        → TellsFrom ByInR1A2 InServer ByInR1A3
        (all_end_moved server_rules acts (end_started (first_server window)) moves).passage }
{}

/// Whatever moves an out proxy makes, allowed or not: each window that it told by CONN/C2 is one
/// that the server told by CONN/C1, and each by IN_R1/A4 one that came by IN_R1/A3 (MS-RPCH 3.2).
pub fn an_out_proxy_tells_what_it_was_told()
    ensures connected { (config : OutProxyConfig) (moves : List Move)
        → TellsFrom ByConnC1 OutServer ByConnC2
        (all_moved out_rules (started (new_proxy config)) moves) }
    ensures replaced { (config : OutProxyConfig) (moves : List Move)
        → TellsFrom ByInR1A3 OutServer ByInR1A4
        (all_moved out_rules (started (new_proxy config)) moves) }
{}
