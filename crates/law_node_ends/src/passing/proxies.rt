//! The legs for which a proxy has no more use. These functions do nothing: their contracts are the
//! laws.

ghost use Rattle.std.specs.Prelude.{◌≡◌, ℕ, List, true, false};
ghost use Rattle.std.specs.List.{AllByRecursion};
ghost use Rattle.rh_line.specs.declared.leg.Leg.{Leg};
ghost use Rattle.rh_inproxy.specs.declared.state.InProxyConfig.{InProxyConfig};
ghost use Rattle.rh_inproxy.specs.Machine.{rules as in_rules};
ghost use Rattle.rh_inproxy.specs.State.{first};
ghost use Rattle.rh_outproxy.specs.declared.state.OutProxyConfig.{OutProxyConfig};
ghost use Rattle.rh_outproxy.specs.Machine.{rules as out_rules};
ghost use Rattle.rh_outproxy.specs.OutProxy.{new_proxy};
ghost use Rattle.law_moves.specs.Moves.{AreAllowed, Move, all_moved, started};
ghost use Rattle.law_role_inproxy.specs.Order.{came_log as in_came, put_items as in_put};
ghost use Rattle.law_role_outproxy.specs.Order.{came_log as out_came, put_items as out_put, server_leg};
ghost use Rattle.law_node_ends.specs.Passed.{AsksNoEcho, HeadsAre, IsDoneBehindEnd, IsDoneBehindEnds};
ghost use Rattle.law_node_ends.specs.Passed.{ci_leg, is_leg};

use law_role_inproxy::an_in_proxy_keeps_order;
use law_role_outproxy::an_out_proxy_keeps_order;

/// And if legs are marked: on each ci leg that came up and is in use no more, IN_R1/A5 came, or
/// END/A1 did there or on one of the ci legs before it, behind which no RPC PDU is taken.
pub fn an_in_proxy_is_done_behind_a_mark_or_end()
    ensures { (config : InProxyConfig) (moves : List Move)
        → AreAllowed in_rules (started (first config)) moves
        → AllByRecursion (HeadsAre (AsksNoEcho true)) moves
        → (let p = all_moved in_rules (started (first config)) moves in
        (n : ℕ) → in_rules.was_up p.role (ci_leg n) ≡ true
        → IsDoneBehindEnds in_rules p.role (ci_leg n) (in_came p.came) n) }
{
    an_in_proxy_keeps_order();
}

/// Whatever moves an out proxy makes, as long as no head asks for an echo: on its os leg, which has
/// its number, OUT_R1/A9 or END/B1 came if it is in use no more.
pub fn an_out_proxy_is_done_behind_a_mark()
    ensures { (config : OutProxyConfig) (moves : List Move)
        → AreAllowed out_rules (started (new_proxy config)) moves
        → AllByRecursion (HeadsAre (AsksNoEcho false)) moves
        → (let p = all_moved out_rules (started (new_proxy config)) moves in
        IsDoneBehindEnd out_rules p.role (server_leg config.number)
        (out_came p.came config.number)) }
{
    an_out_proxy_keeps_order();
}

/// And an out proxy put OUT_R1/A10 or END/B2 on its co leg, which has its number, if any of its
/// legs is in use no more.
pub fn an_out_proxy_puts_a_mark()
    ensures { (config : OutProxyConfig) (moves : List Move)
        → AreAllowed out_rules (started (new_proxy config)) moves
        → AllByRecursion (HeadsAre (AsksNoEcho false)) moves
        → (let p = all_moved out_rules (started (new_proxy config)) moves in
        (leg : Leg) → IsDoneBehindEnd out_rules p.role leg (out_put config.number p.put)) }
{
    an_out_proxy_keeps_order();
}

/// And an in proxy put IN_R1/A6 or END/A2 on its is leg if that is in use no more.
pub fn an_in_proxy_puts_a_mark()
    ensures { (config : InProxyConfig) (moves : List Move)
        → AreAllowed in_rules (started (first config)) moves
        → AllByRecursion (HeadsAre (AsksNoEcho true)) moves
        → (let p = all_moved in_rules (started (first config)) moves in
        (n : ℕ) → IsDoneBehindEnd in_rules p.role (is_leg n) (in_put p.put)) }
{
    an_in_proxy_keeps_order();
}
