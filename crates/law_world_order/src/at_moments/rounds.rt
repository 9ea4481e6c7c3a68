//! Replacements in a world of roles. This function does nothing: its contract is the law.

ghost use Rattle.law_peers_moments.specs.GoingRound.{GoRound};
ghost use Rattle.law_node_traces.specs.Traced.Recordings.{history_at};
ghost use Rattle.law_world_order.specs.Flows.{IsFlowing, numbers_of};
ghost use Rattle.law_world_order.specs.Premises.{AtEachMoment, InNewWorlds};

use crate::at_moments::worlds::a_world_of_roles_is_at_a_moment;
use law_peers_moments::replacements_go_round;

/// In each world of new roles whose numbers are in their ranges, at every moment that changes of
/// lines and half steps reach, whatever they cut, break and replace: of each packet of a
/// replacement as many passed the ends as of the one before it, or one less. So at most one
/// replacement of an IN channel and one of an OUT channel is on its way.
pub fn replacements_of_a_world_go_round<K>()
    ensures { InNewWorlds K (λ m w ours. AtEachMoment m w (λ v by.
        (flowing : IsFlowing (numbers_of ours) w v (history_at m w v by.leads))
        × GoRound flowing.flows.client.passage.passage flowing.flows.server.passage.passage)) }
{
    a_world_of_roles_is_at_a_moment::<K>();
    replacements_go_round();
}
