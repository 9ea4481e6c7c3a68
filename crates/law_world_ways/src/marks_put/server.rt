//! The marks that a server puts. Its function does nothing: its contract is the law.

ghost use Rattle.std.specs.Prelude.{◌≡◌, ◌≤◌, ◌<◌, ℕ, List, true, false};
ghost use Rattle.std.specs.List.{list_any};
ghost use Rattle.law_order.specs.Items.{has_end};
ghost use Rattle.rh_server.specs.Acknowledging.{out_server as os};
ghost use Rattle.rh_server.specs.Servers.{acts, first, rules};
ghost use Rattle.law_moves.specs.Moves.{AreAllowedAtEnd, EndMove, all_end_moved, end_started};
ghost use Rattle.law_moves.specs.Moves.{is_at_work, is_in_use};
ghost use Rattle.law_role_server.specs.Order.{sent};
ghost use Rattle.law_node_streams.specs.Streams.{is_end_up_on};
ghost use Rattle.law_node_ends.specs.Passed.{IsDoneBehindEnd};

use law_role_server::a_server_gives_in_order;

/// Whatever happens to a server: on each of its os legs that came up and is in use no more, up to
/// the writing channel's, it put OUT_R1/A9 or END/B1; and one behind that is in use while the
/// server's work is not done. Once that is done, END/B1 was put on the writing channel.
pub fn a_server_puts_a_mark()
    ensures marks { (window : ℕ) (moves : List EndMove)
        → AreAllowedAtEnd rules acts (end_started (first window)) moves
        → (let p = all_end_moved rules acts (end_started (first window)) moves in (n : ℕ)
        → n ≤ p.passage.role.writing → list_any (is_end_up_on (os n)) moves ≡ true
        → IsDoneBehindEnd rules p.passage.role (os n) (sent p n)) }
    ensures behind { (window : ℕ) (moves : List EndMove)
        → AreAllowedAtEnd rules acts (end_started (first window)) moves
        → (let p = all_end_moved rules acts (end_started (first window)) moves in (n : ℕ)
        → p.passage.role.writing < n → list_any (is_end_up_on (os n)) moves ≡ true
        → is_at_work rules p.passage.role ≡ true
        → is_in_use rules p.passage.role (os n) ≡ true) }
    ensures over { (window : ℕ) (moves : List EndMove)
        → AreAllowedAtEnd rules acts (end_started (first window)) moves
        → (let p = all_end_moved rules acts (end_started (first window)) moves in
        is_at_work rules p.passage.role ≡ false
        → has_end (sent p p.passage.role.writing) ≡ true) }
{
    a_server_gives_in_order();
}
