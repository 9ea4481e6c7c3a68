//! The windows of a world of roles. This function does nothing: its contract is the law.

ghost use Rattle.std.specs.Prelude.{ℕ};
ghost use Rattle.rh_line.specs.declared.cause.Cause.TheVariants.{OutOfRange, WindowExceeded};
ghost use Rattle.rh_line.specs.declared.leg.Leg.{Leg};
ghost use Rattle.rh_record.specs.declared.answer.Who.{Who};
ghost use Rattle.rh_client.specs.declared.state.ClientRole.{ClientRole};
ghost use Rattle.law_node_history.specs.Carried.{happened};
ghost use Rattle.law_node_history.specs.Changes.{Change, MayChange};
ghost use Rattle.law_node_history.specs.Closes.{ClosesNode};
ghost use Rattle.law_node_traces.specs.Traced.Ours.{rules};
ghost use Rattle.law_node_traces.specs.Traced.Recordings.{history_at};
ghost use Rattle.law_world_order.specs.Flows.{numbers_of};
ghost use Rattle.law_world_order.specs.Premises.{AreDistinct, AtEachMoment, InNewWorlds};
ghost use Rattle.law_world_windows.specs.ClientHops.{HasOneWindow};

use crate::client_hops::no_hop_of_a_client_closes_a_node;
use crate::known::nodes_keep_their_laws;
use crate::no_hop_on_one_leg_closes_a_node;
use crate::windows::rows::{a_window_is_exceeded_for_a_row, rows_refuse_on_their_legs};
use law_world_honest::what_is_fed_closes_for_the_role;
use rh_client::ClientRole;
use rh_inproxy::InProxyRole;
use rh_outproxy::OutProxyRole;
use rh_server::ServerRole;

/// In each world of new roles whose numbers are in their ranges, and whose in proxies have one
/// window, at every moment that changes of lines and half steps reach, and by which no two legs of
/// the client of one kind came up under one cookie: no further change closes any node with
/// `WindowExceeded` of any leg, and none closes any node with `OutOfRange` of any leg (MS-RPCH 3.2,
/// 3.2.1).
pub fn no_window_closes_a_node<K>()
    ensures windows { InNewWorlds K (λ m w ours. HasOneWindow (numbers_of ours)
        → AtEachMoment m w (λ v by.
        AreDistinct (happened (history_at m w v by.leads).client)
        → (change : Change) → MayChange rules v change → (node : Who) (leg : Leg)
        (reached edge : ℕ)
        → ClosesNode rules v change node (WindowExceeded leg reached edge) → ⊥)) }
    ensures ranges { InNewWorlds K (λ m w ours. HasOneWindow (numbers_of ours)
        → AtEachMoment m w (λ v by.
        AreDistinct (happened (history_at m w v by.leads).client)
        → (change : Change) → MayChange rules v change → (node : Who) (leg : Leg)
        (command value : ℕ)
        → ClosesNode rules v change node (OutOfRange leg command value) → ⊥)) }
{
    rows_refuse_on_their_legs();
    what_is_fed_closes_for_the_role::<K>();
    no_hop_on_one_leg_closes_a_node::<K>();
    no_hop_of_a_client_closes_a_node::<K>();
    a_window_is_exceeded_for_a_row::<ClientRole>();
    a_window_is_exceeded_for_a_row::<ServerRole>();
    a_window_is_exceeded_for_a_row::<InProxyRole>();
    a_window_is_exceeded_for_a_row::<OutProxyRole>();
    nodes_keep_their_laws();
}
