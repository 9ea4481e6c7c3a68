//! The order law behind lines and half steps. These functions do nothing: their contracts are the
//! laws.

ghost use Rattle.std.specs.Prelude.{◌≡◌, List, true};
ghost use Rattle.rh_client.specs.declared.state.ClientRole.{ClientRole};
ghost use Rattle.law_node_history.specs.Changes.{Turn, after_turns};
ghost use Rattle.law_node_traces.specs.Traced.Cookies.{AreWhole, is_whole_half};
ghost use Rattle.law_node_traces.specs.Traced.Ours.{deeds, rules};
ghost use Rattle.law_world_order.specs.Flows.{numbers_of};
ghost use Rattle.law_world_order.specs.Premises.{InNewWorlds};
ghost use Rattle.law_world_order.specs.Turns.{IsInOrder};

use crate::directions::marks_are_last;
use crate::worlds::roles_keep_order;
use law_node_traces::turns_are_changes;
use rh_client::ClientRole;
use rh_inproxy::InProxyRole;
use rh_nodes::Half;
use rh_outproxy::OutProxyRole;
use rh_server::ServerRole;

/// The cookie of a half step has 16 bytes, by its type.
pub fn a_half_step_is_whole(half: Half)
    ensures { is_whole_half half ≡ true }
{
    let _value = half;
}

/// In each world of new roles whose numbers are in their ranges order is kept behind any lines and
/// half steps, in any order: where a node alone is told that its leg is up, failed or ended, or the
/// moment, whatever the node at the other end is told.
pub fn turns_keep_order<K>()
    ensures { InNewWorlds K (λ m w ours.
        (turns : List Turn) → AreWhole turns
        → IsInOrder (numbers_of ours) m w (after_turns rules m deeds w turns)) }
{
    turns_are_changes::<K, ClientRole, ServerRole, InProxyRole, OutProxyRole>();
    roles_keep_order::<K>();
    marks_are_last::<K>();
}
