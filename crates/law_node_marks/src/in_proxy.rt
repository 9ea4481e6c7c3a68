//! When an in proxy is done, and what its ci legs that end are to it. These functions do nothing:
//! their contracts are the laws.

ghost use Rattle.std.specs.Prelude.{◌≡◌, ℕ, List, [], true, false};
ghost use Rattle.std.specs.List.{AllByRecursion};
ghost use Rattle.std.specs.declared.option.Option.{Option};
ghost use Rattle.law_order.specs.Items.{has_handover};
ghost use Rattle.rh_sig.specs.declared.name.Pipe.{Pipe};
ghost use Rattle.rh_sig.specs.declared.named.Named.TheVariants.{InR1B1};
ghost use Rattle.rh_line.specs.declared.leg.Leg.{Leg};
ghost use Rattle.rh_shell.specs.declared.course.Course.TheVariants.{Going};
ghost use Rattle.rh_shell.specs.Shells.{ended};
ghost use Rattle.rh_inproxy.specs.declared.state.InProxyConfig.{InProxyConfig};
ghost use Rattle.rh_inproxy.specs.Machine.{first_node, rooms, rules};
ghost use Rattle.rh_inproxy.specs.State.{first};
ghost use Rattle.law_moves.specs.Moves.{AreAllowed, Move, all_moved, is_at_work, started};
ghost use Rattle.law_moves.specs.Moving.{Event, after_events};
ghost use Rattle.law_moves.specs.Wires.{of_leg};
ghost use Rattle.law_moves.specs.Passages.Passing.{Has};
ghost use Rattle.law_role_inproxy.specs.Counted.{is_leg};
ghost use Rattle.law_role_inproxy.specs.Order.{came_log, put_items};
ghost use Rattle.law_role_inproxy.specs.Refusing.{ci_leg};
ghost use Rattle.law_role_marks.specs.Marking.{has_passed};
ghost use Rattle.law_role_marks.specs.Marks.{marks_handed};
ghost use Rattle.law_node_streams.specs.Streams.{Stream};
ghost use Rattle.law_node_ends.specs.Passed.{AsksNoEcho, HeadsAre};
ghost use Rattle.law_node_marks.specs.Losing.{marking};

use law_role_inproxy::an_in_proxy_keeps_order;
use law_role_marks::an_in_proxy_only_marks_behind_a_mark;

/// An in proxy that loses its newest ci leg only once IN_R1/A5 came there, and is asked for no echo,
/// is done only once it put IN_R1/A6.
pub fn an_in_proxy_is_over_behind_its_mark()
    ensures { (config : InProxyConfig) (moves : List Move)
        → AreAllowed (marking rules marks_handed) (started (first config)) moves
        → AllByRecursion (HeadsAre (AsksNoEcho true)) moves
        → (let p = all_moved (marking rules marks_handed) (started (first config)) moves in
        is_at_work rules p.role ≡ false → has_handover (put_items p.put) ≡ true) }
{
    an_in_proxy_keeps_order();
}

/// One that is asked for no echo puts nothing on its ci legs.
pub fn an_in_proxy_puts_nothing_to_its_client()
    ensures { (config : InProxyConfig) (moves : List Move)
        → AreAllowed rules (started (first config)) moves
        → AllByRecursion (HeadsAre (AsksNoEcho true)) moves → (n : ℕ)
        → of_leg (ci_leg n) (all_moved rules (started (first config)) moves).put ≡ [] }
{}

/// And one on whose is leg IN_R1/B1 came is done.
pub fn an_in_proxy_is_done_where_it_was_told()
    ensures { (config : InProxyConfig) (moves : List Move)
        → AreAllowed rules (started (first config)) moves
        → AllByRecursion (HeadsAre (AsksNoEcho true)) moves → (n : ℕ)
        → Has InR1B1 (of_leg (is_leg n) (all_moved rules (started (first config)) moves).came)
        → is_at_work rules (all_moved rules (started (first config)) moves).role ≡ false }
{}

/// Whatever happens at the node of an in proxy that is asked for no echo: the end of a ci leg on
/// which IN_R1/A5 or END/A1 came doesn't close it.
pub fn no_end_of_a_ci_leg_closes_an_in_proxy_behind_a_mark()
    ensures { (config : InProxyConfig) (pipe : Leg → Option Pipe) (events : List Event)
        (stream : Stream rules (first config) rooms pipe events)
        → AllByRecursion (HeadsAre (AsksNoEcho true)) stream.leads.moves → (n : ℕ)
        → has_passed (came_log stream.passage.came n) ≡ true
        → (let node = after_events rules (first_node config) events in
        node.course ≡ Going → (ended rules node (ci_leg n)).0.course ≡ node.course) }
{
    an_in_proxy_only_marks_behind_a_mark();
    an_in_proxy_puts_nothing_to_its_client();
}

/// Nor does the end of any leg once IN_R1/B1 came.
pub fn no_end_closes_an_in_proxy_that_was_told()
    ensures { (config : InProxyConfig) (pipe : Leg → Option Pipe) (events : List Event)
        (stream : Stream rules (first config) rooms pipe events)
        → AllByRecursion (HeadsAre (AsksNoEcho true)) stream.leads.moves → (n : ℕ)
        → Has InR1B1 (of_leg (is_leg n) stream.passage.came) → (leg : Leg)
        → (let node = after_events rules (first_node config) events in
        (ended rules node leg).0.course ≡ node.course) }
{
    an_in_proxy_is_done_where_it_was_told();
}
