//! How long a server's work lasts. These functions do nothing: their contracts are the laws.

ghost use Rattle.std.specs.Prelude.{◌≡◌, ℕ, List, true};
ghost use Rattle.std.specs.declared.option.Option.{Option};
ghost use Rattle.law_order.specs.Items.{has_handover};
ghost use Rattle.rh_sig.specs.declared.name.Pipe.{Pipe};
ghost use Rattle.rh_line.specs.declared.leg.Leg.{Leg};
ghost use Rattle.rh_line.specs.declared.leg.LegKind.TheVariants.{InServer};
ghost use Rattle.rh_server.specs.Servers.{acts, first, new_server, rooms, rules};
ghost use Rattle.law_moves.specs.Moves.{is_at_work};
ghost use Rattle.law_moves.specs.Moving.{EndEvent, after_end_events};
ghost use Rattle.law_role_server.specs.Counted.Counting.{leg_at};
ghost use Rattle.law_role_server.specs.Order.{got};
ghost use Rattle.law_node_streams.specs.Streams.{EndStream};
ghost use Rattle.law_node_lasting.specs.Lasting.{AllAgreeAtEnd, marks_left};

use law_node_marks::a_node_goes_by_rules_that_mark_the_same;
use law_role_server::a_server_takes_in_order;
use rh_server::ServerRole;

/// Whatever happens at the node of a server, but that it loses an is leg on which no IN_R1/A6 came:
/// its work goes on, since the newest IN channel's leg stays.
pub fn a_server_that_lost_what_was_handed_over_works_on()
    ensures { (window : ℕ) (events : List EndEvent)
        → AllAgreeAtEnd rules acts marks_left (new_server window) events
        → is_at_work rules (after_end_events rules acts (new_server window) events).role ≡ true }
{
    a_node_goes_by_rules_that_mark_the_same::<ServerRole>();
    a_server_takes_in_order();
}

/// Whatever happens there: an is leg on which IN_R1/A6 came is one that it may lose so.
pub fn a_server_may_lose_what_was_handed_over()
    ensures { (window : ℕ) (pipe : Leg → Option Pipe) (events : List EndEvent)
        (stream : EndStream rules acts (first window) rooms pipe events) (n : ℕ)
        → has_handover (got stream.passage n) ≡ true
        → (let s = (after_end_events rules acts (new_server window) events).role in
        marks_left s (leg_at InServer n) ≡ rules.only_marks s (leg_at InServer n)) }
{}
