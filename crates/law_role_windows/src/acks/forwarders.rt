//! Who passes acknowledgements on. These functions do nothing: their contracts are the laws.

ghost use Rattle.std.specs.Prelude.{List, ℕ};
ghost use Rattle.rh_line.specs.declared.leg.LegKind.TheVariants.{ClientIn, InServer, OutServer};
ghost use Rattle.rh_inproxy.specs.declared.state.InProxyConfig.{InProxyConfig};
ghost use Rattle.rh_inproxy.specs.Machine.{rules as in_rules};
ghost use Rattle.rh_inproxy.specs.State.{first as first_in};
ghost use Rattle.rh_outproxy.specs.declared.state.OutProxyConfig.{OutProxyConfig};
ghost use Rattle.rh_outproxy.specs.Machine.{rules as out_rules};
ghost use Rattle.rh_outproxy.specs.OutProxy.{new_proxy};
ghost use Rattle.rh_server.specs.Servers.{acts, first as first_server, rules as server_rules};
ghost use Rattle.law_moves.specs.Moves.{EndMove, Move, all_end_moved, all_moved};
ghost use Rattle.law_moves.specs.Moves.{end_started, started};
ghost use Rattle.law_role_windows.specs.Acknowledging.Acks.{PassesOn};

/// Whatever moves an in proxy makes, allowed or not: each acknowledgement to an out proxy that it
/// put is one that came from the client, with the same values (MS-RPCH 3.2.1).
pub fn an_in_proxy_passes_acknowledgements_on()
    ensures { (config : InProxyConfig) (moves : List Move)
        → PassesOn ClientIn 3 (all_moved in_rules (started (first_in config)) moves) }
{}

/// Whatever moves an out proxy makes, allowed or not: each acknowledgement with a destination that
/// it put is one that came from the server, with the same values (MS-RPCH 3.2.1).
pub fn an_out_proxy_passes_acknowledgements_on()
    ensures { (config : OutProxyConfig) (moves : List Move) (to : ℕ)
        → PassesOn OutServer to (all_moved out_rules (started (new_proxy config)) moves) }
{}

/// Whatever happens to a server: each acknowledgement with a destination that it put is one that
/// came from an in proxy, with the same values (MS-RPCH 3.2.1).
pub fn a_server_passes_acknowledgements_on()
    ensures { (window : ℕ) (moves : List EndMove) (to : ℕ)
        → PassesOn InServer to
        (all_end_moved server_rules acts (end_started (first_server window)) moves).passage }
{}
