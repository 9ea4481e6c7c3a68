//! What the windows of proxies count. These functions do nothing: their contracts are the laws.

ghost use Rattle.std.specs.Prelude.{List};
ghost use Rattle.rh_window.specs.Sides.{IsWindow};
ghost use Rattle.rh_inproxy.specs.declared.state.InProxyConfig.{InProxyConfig};
ghost use Rattle.rh_inproxy.specs.Machine.{rules as in_rules};
ghost use Rattle.rh_inproxy.specs.State.{first as first_in};
ghost use Rattle.rh_outproxy.specs.declared.state.OutProxyConfig.{OutProxyConfig};
ghost use Rattle.rh_outproxy.specs.Machine.{rules as out_rules};
ghost use Rattle.rh_outproxy.specs.OutProxy.{new_proxy};
ghost use Rattle.law_moves.specs.Moves.{AreAllowed, Move, all_moved, started};
ghost use Rattle.law_role_inproxy.specs.Counted.{is_leg};
ghost use Rattle.law_role_inproxy.specs.Refusing.{ci_leg};
ghost use Rattle.law_role_outproxy.specs.Sending.{OpensOnce, co_leg, os_leg};
ghost use Rattle.law_role_bytes.specs.Bytes.{CountsCame, CountsPut, WasToldThere};

use law_role_inproxy::an_in_proxy_keeps_order;

/// Whatever moves an in proxy makes, allowed or not: its window towards the server counts as sent
/// exactly the bytes of the RPC PDUs that it put on its is leg (MS-RPCH 3.2).
pub fn an_in_proxy_counts_what_it_sends()
    ensures { (config : InProxyConfig) (moves : List Move)
        → (let p = all_moved in_rules (started (first_in config)) moves in
        CountsPut (is_leg config.number) p.put p.role.window) }
{}

/// Whatever moves an in proxy makes, allowed or not: it knows of a window of the server only where
/// CONN/B3 or IN_R1/B2 told one on its is leg (MS-RPCH 3.2).
pub fn an_in_proxy_knows_of_a_window_that_was_told()
    ensures { (config : InProxyConfig) (moves : List Move) → WasToldThere config.number
        (all_moved in_rules (started (first_in config)) moves) }
{}

/// Whatever moves an out proxy makes, allowed or not: its window towards the server counts as
/// received exactly the bytes of the RPC PDUs that came on its os leg (MS-RPCH 3.2).
pub fn an_out_proxy_counts_what_it_receives()
    ensures { (config : OutProxyConfig) (moves : List Move)
        → (let p = all_moved out_rules (started (new_proxy config)) moves in
        CountsCame (os_leg config.number) p.came p.role.line.current.window) }
{}

/// Whatever happens to an in proxy: the window of its current channel counts as received exactly
/// the bytes of the RPC PDUs that came on the channel's ci leg (MS-RPCH 3.2).
pub fn an_in_proxy_counts_what_it_receives()
    ensures { (config : InProxyConfig) (moves : List Move) → IsWindow config.window
        → AreAllowed in_rules (started (first_in config)) moves
        → (let p = all_moved in_rules (started (first_in config)) moves in
        CountsCame (ci_leg p.role.current.number) p.came p.role.line.current.window) }
{
    an_in_proxy_keeps_order();
}

/// Whatever moves an out proxy makes, allowed or not: its window towards the client counts as sent
/// exactly the bytes of the RPC PDUs that it put on its co leg, where one packet at the most opened
/// the channel (MS-RPCH 3.2).
pub fn an_out_proxy_counts_what_it_sends()
    ensures { (config : OutProxyConfig) (moves : List Move)
        → (let p = all_moved out_rules (started (new_proxy config)) moves in
        OpensOnce config.number p.came → CountsPut (co_leg config.number) p.put p.role.window) }
{}
