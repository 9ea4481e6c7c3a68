//! How long an in proxy's work lasts. These functions do nothing: their contracts are the laws.

ghost use Rattle.std.specs.Prelude.{◌≡◌, ◌⊎◌, ◌<◌, ◌≤◌, ℕ, List, true, false};
ghost use Rattle.std.specs.List.{AllByRecursion};
ghost use Rattle.std.specs.declared.option.Option.{Option};
ghost use Rattle.law_order.specs.Items.{has_handover};
ghost use Rattle.rh_sig.specs.declared.name.Pipe.{Pipe};
ghost use Rattle.rh_sig.specs.declared.named.Named.TheVariants.{InR1B1};
ghost use Rattle.rh_line.specs.declared.leg.Leg.{Leg};
ghost use Rattle.rh_inproxy.specs.declared.state.InProxyConfig.{InProxyConfig};
ghost use Rattle.rh_inproxy.specs.Machine.{first_node, rooms, rules};
ghost use Rattle.rh_inproxy.specs.State.{first};
ghost use Rattle.law_moves.specs.Moves.{AreAllowed, Move, all_moved, is_at_work, is_in_use, started};
ghost use Rattle.law_moves.specs.Moving.{Event, after_events};
ghost use Rattle.law_moves.specs.Wires.{of_leg};
ghost use Rattle.law_moves.specs.Passages.Passing.{Has};
ghost use Rattle.law_role_inproxy.specs.Counted.{is_leg};
ghost use Rattle.law_role_inproxy.specs.Order.{came_log, put_items};
ghost use Rattle.law_role_inproxy.specs.Refusing.{ci_leg};
ghost use Rattle.law_role_marks.specs.Marks.{marks_handed};
ghost use Rattle.law_node_streams.specs.Streams.{Stream};
ghost use Rattle.law_node_ends.specs.Passed.{AsksNoEcho, HeadsAre};
ghost use Rattle.law_node_marks.specs.Losing.{AllAgree};
ghost use Rattle.law_node_lasting.specs.Lasting.{IsLostUnhanded};

use law_node_marks::a_node_goes_by_rules_that_mark_the_same;
use law_role_inproxy::an_in_proxy_keeps_order;
use rh_inproxy::InProxyRole;

/// An in proxy that is asked for no echo is done only once it put IN_R1/A6 and IN_R1/B1 came; or
/// where it lost its newest ci leg, and no IN_R1/A5 came there.
pub fn an_in_proxy_is_over_once_told_or_left()
    ensures { (config : InProxyConfig) (moves : List Move)
        → AreAllowed rules (started (first config)) moves
        → AllByRecursion (HeadsAre (AsksNoEcho true)) moves
        → (let p = all_moved rules (started (first config)) moves in
        is_at_work rules p.role ≡ false
        → ((has_handover (put_items p.put) ≡ true)
        × Has InR1B1 (of_leg (is_leg config.number) p.came)) ⊎ IsLostUnhanded p.role) }
{
    an_in_proxy_keeps_order();
}

/// Whatever happens at the node of an in proxy that is asked for no echo, but that it loses its
/// newest ci leg before IN_R1/A5 came there: it is done only once it put IN_R1/A6 and IN_R1/B1
/// came.
pub fn an_in_proxy_that_lost_what_was_handed_over_is_over_once_told()
    ensures { (config : InProxyConfig) (pipe : Leg → Option Pipe) (events : List Event)
        (stream : Stream rules (first config) rooms pipe events)
        → AllByRecursion (HeadsAre (AsksNoEcho true)) stream.leads.moves
        → AllAgree rules marks_handed (first_node config) events
        → is_at_work rules (after_events rules (first_node config) events).role ≡ false
        → (has_handover (put_items stream.passage.put) ≡ true)
        × Has InR1B1 (of_leg (is_leg config.number) stream.passage.came) }
{
    an_in_proxy_is_over_once_told_or_left();
    a_node_goes_by_rules_that_mark_the_same::<InProxyRole>();
}

/// So it has no more use for a ci leg only where IN_R1/A5 came there, or for one behind its current
/// one.
pub fn an_in_proxy_is_done_with_what_was_handed_over()
    ensures { (config : InProxyConfig) (pipe : Leg → Option Pipe) (events : List Event)
        (stream : Stream rules (first config) rooms pipe events)
        → AllByRecursion (HeadsAre (AsksNoEcho true)) stream.leads.moves
        → AllAgree rules marks_handed (first_node config) events
        → (n : ℕ) → config.number ≤ n
        → (let s = (after_events rules (first_node config) events).role in
        is_in_use rules s (ci_leg n) ≡ false
        → (has_handover (came_log stream.passage.came n) ≡ true) ⊎ (s.current.number < n)) }
{
    an_in_proxy_keeps_order();
    an_in_proxy_that_lost_what_was_handed_over_is_over_once_told();
}
