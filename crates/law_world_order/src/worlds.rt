//! The order law of a world of roles. This function does nothing: its contract is the law.

ghost use Rattle.law_node_traces.specs.Traced.Cookies.{has_whole_cookie};
ghost use Rattle.law_world_reports.specs.Ordering.Premises.{KeepsOrder};
ghost use Rattle.law_world_order.specs.Premises.{InNewWorlds};

use crate::directions::directions_are_joined;
use law_node_ends::takes_that_end_report_the_end;
use law_node_traces::a_recording_of_roles_is_known;
use law_peers_routes::{callers_take_what_was_given, what_came_up_was_given};

/// In each world of new roles whose numbers are in their ranges order is kept at every moment that
/// changes of lines and half steps reach: what an end took is a front of what the other one gave,
/// and where it is told that no more comes it took all of it, and the other was told to close.
pub fn roles_keep_order<K>()
    ensures { InNewWorlds K (λ m w ours.
        KeepsOrder has_whole_cookie m w) }
{
    directions_are_joined::<K>();
    a_recording_of_roles_is_known::<K>();
    takes_that_end_report_the_end();
    callers_take_what_was_given();
    what_came_up_was_given();
}
