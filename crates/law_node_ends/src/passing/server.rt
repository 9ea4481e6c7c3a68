//! The legs for which a server has no more use. Its function does nothing: its contract is the law.

ghost use Rattle.std.specs.Prelude.{◌≡◌, ℕ, List, true};
ghost use Rattle.rh_server.specs.Servers.{acts, first, rules};
ghost use Rattle.law_moves.specs.Moves.{AreAllowedAtEnd, EndMove, all_end_moved, end_started};
ghost use Rattle.law_role_server.specs.Order.{came_up, got};
ghost use Rattle.law_node_ends.specs.Passed.{IsDoneBehindEnd, is_leg};

use law_role_server::a_server_takes_in_order;

/// Whatever happens to a server: on each is leg that came up and is in use no more, IN_R1/A6 or
/// END/A2 came. A number that IN_R2/A2 gave has no leg of its own.
pub fn a_server_is_done_behind_a_mark()
    ensures { (window : ℕ) (moves : List EndMove)
        → AreAllowedAtEnd rules acts (end_started (first window)) moves
        → (let p = all_end_moved rules acts (end_started (first window)) moves in
        (n : ℕ) → came_up moves n ≡ true
        → IsDoneBehindEnd rules p.passage.role (is_leg n) (got p n)) }
{
    a_server_takes_in_order();
}
