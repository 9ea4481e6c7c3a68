//! How soon a node of a world falls silent. This function does nothing: its contract is the law.

ghost use Rattle.std.specs.Prelude.{◌≤◌, ℕ};
ghost use Rattle.rh_line.specs.declared.cause.Cause.TheVariants.{Silent};
ghost use Rattle.rh_line.specs.declared.leg.Leg.{Leg};
ghost use Rattle.rh_record.specs.declared.answer.Who.{Who};
ghost use Rattle.rh_sig.specs.declared.ranges.TheConstants.{LEAST_TIMEOUT};
ghost use Rattle.law_node_history.specs.Changes.{Change};
ghost use Rattle.law_node_history.specs.Closes.{ClosesNode};
ghost use Rattle.law_node_traces.specs.Traced.Ours.{rules};
ghost use Rattle.law_world_order.specs.Premises.{AtEachMoment, InNewWorlds};

use law_moves::{what_is_read_is_fine, what_was_put_is_read};
use law_node_causes::{
    a_node_falls_silent_since_it_was_heard, causes_come_from_their_events,
    events_close_with_their_causes,
};
use law_node_history::{a_leg_is_read_at_its_ends, what_is_heard_was_drawn};
use law_node_traces::a_recording_of_roles_is_known;
use law_world_order::what_is_put_is_legible;
use rh_client::ClientRole;
use rh_inproxy::InProxyRole;
use rh_outproxy::OutProxyRole;
use rh_server::ServerRole;

/// In each world of new roles whose numbers are in their ranges, at every moment that changes of
/// lines and half steps reach: no node falls silent before the least timeout, in milliseconds. An
/// in proxy watches for the timeout that it was made with, and a client for one that it was told.
pub fn no_node_falls_silent_before_the_least_timeout<K>()
    ensures { InNewWorlds K (λ m w ours. AtEachMoment m w (λ v by.
        (change : Change) (node : Who) (leg : Leg) (since now : ℕ)
        → ClosesNode rules v change node (Silent leg since now) → LEAST_TIMEOUT ≤ now)) }
{
    a_recording_of_roles_is_known::<K>();
    what_is_put_is_legible::<K>();
    what_was_put_is_read();
    what_is_read_is_fine();
    what_is_heard_was_drawn::<K, ClientRole, ServerRole, InProxyRole, OutProxyRole>();
    a_leg_is_read_at_its_ends::<K, ClientRole, ServerRole, InProxyRole, OutProxyRole>();
    a_node_falls_silent_since_it_was_heard();
    causes_come_from_their_events::<ClientRole>();
    events_close_with_their_causes::<ClientRole>();
}
