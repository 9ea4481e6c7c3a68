//! The ci legs for which an in proxy has no use. This function does nothing: its contract is the
//! law.

ghost use Rattle.std.specs.Prelude.{◌≡◌, ◌≤◌, ℕ, List, true, false};
ghost use Rattle.std.specs.List.{AllByRecursion};
ghost use Rattle.std.specs.declared.option.Option.{Option};
ghost use Rattle.rh_sig.specs.declared.name.Pipe.{Pipe};
ghost use Rattle.rh_line.specs.declared.leg.Leg.{Leg};
ghost use Rattle.rh_inproxy.specs.declared.state.InProxyConfig.{InProxyConfig};
ghost use Rattle.rh_inproxy.specs.Machine.{first_node, rooms, rules};
ghost use Rattle.rh_inproxy.specs.State.{first};
ghost use Rattle.law_moves.specs.Moves.{is_in_use};
ghost use Rattle.law_moves.specs.Moving.{Event, after_events};
ghost use Rattle.law_role_inproxy.specs.Refusing.{ci_leg};
ghost use Rattle.law_role_marks.specs.Marks.{marks_handed};
ghost use Rattle.law_node_streams.specs.Streams.{Stream};
ghost use Rattle.law_node_ends.specs.Passed.{AsksNoEcho, HeadsAre};
ghost use Rattle.law_node_marks.specs.Losing.{AllAgree};

use law_node_lasting::{
    an_in_proxy_is_done_with_what_was_handed_over,
    an_in_proxy_that_lost_what_was_handed_over_is_over_once_told,
};
use law_role_inproxy::an_in_proxy_keeps_order;
use law_role_marks::an_in_proxy_may_lose_what_was_handed_over;

/// Whatever happens at the node of an in proxy that is asked for no echo, but that it loses its
/// newest ci leg before IN_R1/A5 came there: a ci leg for which it has no use is one that it may
/// lose so.
pub fn an_in_proxy_may_lose_what_it_has_no_use_for()
    ensures { (config : InProxyConfig) (pipe : Leg → Option Pipe) (events : List Event)
        (stream : Stream rules (first config) rooms pipe events)
        → AllByRecursion (HeadsAre (AsksNoEcho true)) stream.leads.moves
        → AllAgree rules marks_handed (first_node config) events
        → (n : ℕ) → config.number ≤ n
        → (let s = (after_events rules (first_node config) events).role in
        is_in_use rules s (ci_leg n) ≡ false
        → marks_handed s (ci_leg n) ≡ rules.only_marks s (ci_leg n)) }
{
    an_in_proxy_keeps_order();
    an_in_proxy_may_lose_what_was_handed_over();
    an_in_proxy_that_lost_what_was_handed_over_is_over_once_told();
    an_in_proxy_is_done_with_what_was_handed_over();
}
