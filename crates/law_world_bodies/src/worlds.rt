//! A body that is too long closes no node in a world of honest roles. This function does nothing:
//! its contract is the law.

ghost use Rattle.std.specs.Prelude.{◌≡◌, ℕ};
ghost use Rattle.rh_line.specs.declared.cause.Cause.TheVariants.{BodyOver};
ghost use Rattle.rh_line.specs.declared.leg.Leg.{Leg};
ghost use Rattle.rh_record.specs.declared.answer.Who.{Who};
ghost use Rattle.rh_client.specs.declared.state.ClientRole.{ClientRole};
ghost use Rattle.law_node_history.specs.Changes.{Change, MayChange};
ghost use Rattle.law_node_history.specs.Closes.{ClosesNode};
ghost use Rattle.law_node_traces.specs.Traced.Ours.{rules};
ghost use Rattle.law_world_order.specs.FirstTexts.{IsPort};
ghost use Rattle.law_world_order.specs.Premises.{AtEachMoment, InNewWorlds};

use crate::clients::what_a_client_puts_keeps_its_lengths;
use crate::heads::heads_are_taken_by_their_lengths;
use crate::nodes::{what_a_node_counts_came_behind_a_head, what_an_end_counts_came_behind_a_head};
use law_moves::{texts_are_whole, what_was_put_is_read};
use law_node_begins::{an_end_never_refuses, proxies_keep_their_pipes};
use law_node_causes::{a_proxy_refuses_for_a_reason, causes_come_from_their_events};
use law_node_ends::{
    a_leg_that_a_client_left_stays_unused, a_leg_that_a_server_left_stays_unused,
    a_leg_that_an_in_proxy_left_stays_unused, a_leg_that_an_out_proxy_left_stays_unused,
};
use law_node_history::what_is_heard_was_drawn;
use law_node_traces::{a_recording_of_roles_is_known, what_is_heard_was_drawn_before};
use law_world_order::what_is_put_is_legible;
use rh_client::ClientRole;
use rh_inproxy::InProxyRole;
use rh_outproxy::OutProxyRole;
use rh_server::ServerRole;

/// In each world of new roles whose numbers are in their ranges, at every moment that changes of
/// lines and half steps reach, no further change closes a node with `BodyOver`. A proxy is sent no
/// more bytes behind a request than it told: of an IN channel its lifetime, of an OUT channel the
/// packets that open it. And the client is sent no more behind a response: all of it came from the
/// server, within the lifetime that the proxy told there, but for CONN/A3 and Pings, for which the
/// response leaves room. Where no head comes no body is counted.
pub fn no_change_closes_a_node_for_a_long_body<K>()
    ensures { InNewWorlds K (λ m w ours. IsPort ours.config.port
        → AtEachMoment m w (λ v by.
        (change : Change) (node : Who) (leg : Leg) (count told : ℕ) → MayChange rules v change
        → ClosesNode rules v change node (BodyOver leg count told) → ⊥)) }
{
    what_a_client_puts_keeps_its_lengths();
    heads_are_taken_by_their_lengths();
    what_a_node_counts_came_behind_a_head::<InProxyRole>();
    what_a_node_counts_came_behind_a_head::<OutProxyRole>();
    what_an_end_counts_came_behind_a_head::<ClientRole>();
    what_an_end_counts_came_behind_a_head::<ServerRole>();
    what_is_put_is_legible::<K>();
    what_was_put_is_read();
    what_is_heard_was_drawn::<K, ClientRole, ServerRole, InProxyRole, OutProxyRole>();
    a_proxy_refuses_for_a_reason();
    a_recording_of_roles_is_known::<K>();
    what_is_heard_was_drawn_before::<K, ClientRole, ServerRole, InProxyRole, OutProxyRole>();
    texts_are_whole();
    an_end_never_refuses();
    proxies_keep_their_pipes();
    a_leg_that_a_client_left_stays_unused();
    a_leg_that_a_server_left_stays_unused();
    a_leg_that_an_in_proxy_left_stays_unused();
    a_leg_that_an_out_proxy_left_stays_unused();
    causes_come_from_their_events::<ClientRole>();
    causes_come_from_their_events::<ServerRole>();
    causes_come_from_their_events::<InProxyRole>();
    causes_come_from_their_events::<OutProxyRole>();
}
