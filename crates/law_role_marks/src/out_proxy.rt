//! The legs of an out proxy that end. Its function does nothing: its contract is the law.

ghost use Rattle.std.specs.Prelude.{◌≡◌, List, true};
ghost use Rattle.rh_line.specs.declared.leg.Leg.{Leg};
ghost use Rattle.rh_outproxy.specs.declared.state.OutProxyConfig.{OutProxyConfig};
ghost use Rattle.rh_outproxy.specs.Machine.{rules};
ghost use Rattle.rh_outproxy.specs.OutProxy.{new_proxy};
ghost use Rattle.law_moves.specs.Moves.{AreAllowed, Move, all_moved, started};
ghost use Rattle.law_role_outproxy.specs.Order.{put_items};
ghost use Rattle.law_role_marks.specs.Marking.{OnlyMarks, has_passed};

use law_role_outproxy::an_out_proxy_keeps_order;

/// Whatever moves an out proxy makes: once it put OUT_R1/A10 or END/B2 to its client, it goes on
/// where one of its legs ends.
pub fn an_out_proxy_only_marks_behind_a_mark()
    ensures { (config : OutProxyConfig) (moves : List Move)
        → AreAllowed rules (started (new_proxy config)) moves
        → (let p = all_moved rules (started (new_proxy config)) moves in
        has_passed (put_items config.number p.put) ≡ true
        → (leg : Leg) → OnlyMarks rules p.role leg) }
{
    an_out_proxy_keeps_order();
}
