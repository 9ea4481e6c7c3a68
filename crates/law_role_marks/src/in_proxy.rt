//! The ci legs of an in proxy that end. These functions do nothing: their contracts are the laws.

ghost use Rattle.std.specs.Prelude.{◌≡◌, ℕ, List, true};
ghost use Rattle.law_order.specs.Items.{has_handover};
ghost use Rattle.rh_inproxy.specs.declared.state.InProxyConfig.{InProxyConfig};
ghost use Rattle.rh_inproxy.specs.Machine.{rules};
ghost use Rattle.rh_inproxy.specs.State.{first};
ghost use Rattle.law_moves.specs.Moves.{AreAllowed, Move, all_moved, started};
ghost use Rattle.law_role_inproxy.specs.Order.{came_log};
ghost use Rattle.law_role_inproxy.specs.Refusing.{ci_leg};
ghost use Rattle.law_role_marks.specs.Marking.{OnlyMarks, has_passed};
ghost use Rattle.law_role_marks.specs.Marks.{marks_handed};

use law_role_inproxy::an_in_proxy_keeps_order;

/// Whatever moves an in proxy makes: it goes on where a ci leg ends on which IN_R1/A5 or END/A1
/// came.
pub fn an_in_proxy_only_marks_behind_a_mark()
    ensures { (config : InProxyConfig) (moves : List Move)
        → AreAllowed rules (started (first config)) moves
        → (let p = all_moved rules (started (first config)) moves in (n : ℕ)
        → has_passed (came_log p.came n) ≡ true → OnlyMarks rules p.role (ci_leg n)) }
{
    an_in_proxy_keeps_order();
}

/// Where IN_R1/A5 came on a ci leg, it may be lost also while it is the newest one.
pub fn an_in_proxy_may_lose_what_was_handed_over()
    ensures { (config : InProxyConfig) (moves : List Move)
        → AreAllowed rules (started (first config)) moves
        → (let p = all_moved rules (started (first config)) moves in (n : ℕ)
        → has_handover (came_log p.came n) ≡ true
        → marks_handed p.role (ci_leg n) ≡ rules.only_marks p.role (ci_leg n)) }
{
    an_in_proxy_keeps_order();
}
