//! What a leg that ends is to a server. These functions do nothing: their contracts are the laws.

ghost use Rattle.std.specs.Prelude.{◌≡◌, ℕ, List, true};
ghost use Rattle.std.specs.declared.option.Option.{Option};
ghost use Rattle.rh_window.specs.Sides.{IsWindow};
ghost use Rattle.law_order.specs.Items.{has_end, has_handover};
ghost use Rattle.rh_sig.specs.declared.name.Pipe.{Pipe};
ghost use Rattle.rh_line.specs.declared.leg.Leg.{Leg};
ghost use Rattle.rh_line.specs.declared.leg.LegKind.TheVariants.{InServer};
ghost use Rattle.rh_shell.specs.Shells.{ended};
ghost use Rattle.rh_server.specs.Acknowledging.{out_server as os};
ghost use Rattle.rh_server.specs.Servers.{acts, first, new_server, rooms, rules};
ghost use Rattle.rh_server.specs.States.{is_put};
ghost use Rattle.law_moves.specs.Moving.{EndEvent, after_end_events};
ghost use Rattle.law_role_server.specs.Counted.Counting.{leg_at};
ghost use Rattle.law_role_server.specs.Order.{got, sent};
ghost use Rattle.law_node_streams.specs.Streams.{EndStream};
ghost use Rattle.law_node_marks.specs.Losing.{DrewAll};

use law_role_marks::{
    a_server_only_marks_what_is_over, a_server_only_marks_what_it_handed_over,
    a_server_only_marks_what_was_handed_over,
};

/// Whatever happens at the node of a server: the end of an os leg on which it put OUT_R1/A9 doesn't
/// close it.
pub fn no_end_of_a_leg_that_it_handed_over_closes_a_server()
    ensures { (window : ℕ) (pipe : Leg → Option Pipe) (events : List EndEvent)
        (stream : EndStream rules acts (first window) rooms pipe events) (n : ℕ)
        → has_handover (sent stream.passage n) ≡ true
        → (let node = after_end_events rules acts (new_server window) events in
        (ended rules node (os n)).0.course ≡ node.course) }
{
    a_server_only_marks_what_it_handed_over();
}

/// Nor does the end of an is leg on which IN_R1/A6 came; where the server has no use for it any
/// more, as long as all is drawn that was put there.
pub fn no_end_of_a_leg_that_was_handed_over_closes_a_server()
    ensures { (window : ℕ) (pipe : Leg → Option Pipe) (events : List EndEvent)
        (stream : EndStream rules acts (first window) rooms pipe events) (n : ℕ)
        → has_handover (got stream.passage n) ≡ true
        → (let node = after_end_events rules acts (new_server window) events in
        (rules.is_done node.role (leg_at InServer n) ≡ true → DrewAll node (leg_at InServer n))
        → (ended rules node (leg_at InServer n)).0.course ≡ node.course) }
{
    a_server_only_marks_what_was_handed_over();
}

/// Nor, once the server put END/B1, that of one on which END/A2 came, as long as the same is so.
pub fn no_end_of_a_leg_that_is_over_closes_a_server()
    ensures { (window : ℕ) → IsWindow window → (pipe : Leg → Option Pipe)
        (events : List EndEvent) (stream : EndStream rules acts (first window) rooms pipe events)
        (n : ℕ) → has_end (got stream.passage n) ≡ true
        → is_put stream.passage.passage.role.end_mark ≡ true
        → (let node = after_end_events rules acts (new_server window) events in
        (rules.is_done node.role (leg_at InServer n) ≡ true → DrewAll node (leg_at InServer n))
        → (ended rules node (leg_at InServer n)).0.course ≡ node.course) }
{
    a_server_only_marks_what_is_over();
}
