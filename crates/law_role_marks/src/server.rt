//! The legs of a server that end. These functions do nothing: their contracts are the laws.

ghost use Rattle.std.specs.Prelude.{◌≡◌, ℕ, List, true};
ghost use Rattle.rh_window.specs.Sides.{IsWindow};
ghost use Rattle.law_order.specs.Items.{has_end, has_handover};
ghost use Rattle.rh_line.specs.declared.leg.LegKind.TheVariants.{InServer};
ghost use Rattle.rh_server.specs.Acknowledging.{out_server as os};
ghost use Rattle.rh_server.specs.Servers.{acts, first, rules};
ghost use Rattle.rh_server.specs.States.{is_put};
ghost use Rattle.law_moves.specs.Moves.{AreAllowedAtEnd, EndMove, all_end_moved, end_started};
ghost use Rattle.law_role_server.specs.Counted.Counting.{leg_at};
ghost use Rattle.law_role_server.specs.Order.{got, sent};
ghost use Rattle.law_role_marks.specs.Marking.{OnlyMarks};

use law_role_server::{a_server_gives_in_order, a_server_takes_in_order};

/// Whatever happens to a server: it goes on where an os leg ends on which it put OUT_R1/A9.
pub fn a_server_only_marks_what_it_handed_over()
    ensures { (window : ℕ) (moves : List EndMove)
        → (let p = all_end_moved rules acts (end_started (first window)) moves in (n : ℕ)
        → has_handover (sent p n) ≡ true → rules.only_marks p.passage.role (os n) ≡ true) }
{
    a_server_gives_in_order();
}

/// Whatever moves a server makes that are allowed: it goes on where an is leg ends on which
/// IN_R1/A6 came.
pub fn a_server_only_marks_what_was_handed_over()
    ensures { (window : ℕ) (moves : List EndMove)
        → AreAllowedAtEnd rules acts (end_started (first window)) moves
        → (let p = all_end_moved rules acts (end_started (first window)) moves in (n : ℕ)
        → has_handover (got p n) ≡ true → OnlyMarks rules p.passage.role (leg_at InServer n)) }
{}

/// And once it put END/B1, also where one ends on which END/A2 came.
pub fn a_server_only_marks_what_is_over()
    ensures { (window : ℕ) → IsWindow window → (moves : List EndMove)
        → AreAllowedAtEnd rules acts (end_started (first window)) moves
        → (let p = all_end_moved rules acts (end_started (first window)) moves in (n : ℕ)
        → has_end (got p n) ≡ true → is_put p.passage.role.end_mark ≡ true
        → OnlyMarks rules p.passage.role (leg_at InServer n)) }
{
    a_server_takes_in_order();
}
