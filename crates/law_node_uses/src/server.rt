//! A server and its os legs. These functions do nothing: their contracts are the laws.

ghost use Rattle.std.specs.Prelude.{◌≡◌, ℕ, List, true, false};
ghost use Rattle.std.specs.List.{AllByRecursion};
ghost use Rattle.rh_server.specs.Acknowledging.{out_server as os};
ghost use Rattle.rh_server.specs.Servers.{acts, new_server, rules};
ghost use Rattle.law_moves.specs.Moves.{is_at_work, is_in_use};
ghost use Rattle.law_moves.specs.Moving.{EndEvent, after_end_events};
ghost use Rattle.law_node_history.specs.Carried.{AreAcceptedAtEnd, came_up, happened};
ghost use Rattle.law_node_marks.specs.Losing.{KeepsLeg};

use law_moves::ends_move_by_their_rules;
use law_node_marks::a_node_goes_by_rules_that_mark_the_same;
use rh_server::ServerRole;

/// Whatever happens at the node of a server, but that it is told that an os leg is lost: while its
/// work goes on it has use for that leg once it came up.
pub fn a_server_uses_an_os_leg_that_it_kept()
    ensures { (window : ℕ) (events : List EndEvent) (n : ℕ)
        → AreAcceptedAtEnd rules acts (new_server window) events
        → came_up (os n) (happened events) ≡ true
        → AllByRecursion (KeepsLeg (os n)) (happened events)
        → (let s = (after_end_events rules acts (new_server window) events).role in
        is_at_work rules s ≡ true → is_in_use rules s (os n) ≡ true) }
{
    a_node_goes_by_rules_that_mark_the_same::<ServerRole>();
}

/// And once its work is done, it stays so.
pub fn a_server_that_is_done_stays_done()
    ensures { (window : ℕ) (events more : List EndEvent)
        → (let node = after_end_events rules acts (new_server window) events in
        is_at_work rules node.role ≡ false
        → is_at_work rules (after_end_events rules acts node more).role ≡ false) }
{
    ends_move_by_their_rules::<ServerRole>();
}
