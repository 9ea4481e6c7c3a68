//! What closes the nodes of a world of honest roles. These functions do nothing: their contracts
//! are the laws.

ghost use Rattle.std.specs.Prelude.{◌≡◌, List, ℕ};
ghost use Rattle.rh_text.specs.declared.ends.Dir.{Dir};
ghost use Rattle.rh_window.specs.declared.fault.TheConstants.{FLOW_CONTROL_ACK};
ghost use Rattle.rh_pdu.specs.declared.fault.HeadFault.{HeadFault};
ghost use Rattle.rh_rts.specs.declared.fault.RtsFault.{RtsFault};
ghost use Rattle.rh_http.specs.declared.fault.HttpFault.{HttpFault};
ghost use Rattle.rh_line.specs.declared.cause.Cause.{Cause};
ghost use Rattle.rh_line.specs.declared.cause.Cause.TheVariants.{BadFrame, BadHead, BadPacket};
ghost use Rattle.rh_line.specs.declared.cause.Cause.TheVariants.{OutOfRange};
ghost use Rattle.rh_line.specs.declared.leg.Leg.{Leg};
ghost use Rattle.rh_record.specs.declared.answer.Who.{Who};
ghost use Rattle.rh_client.specs.declared.state.ClientRole.{ClientRole};
ghost use Rattle.rh_wires.specs.Wires.{receiver};
ghost use Rattle.rh_nodes.specs.World.{at};
ghost use Rattle.law_moves.specs.ReadBack.Well.{ReadsWell};
ghost use Rattle.law_node_history.specs.Carried.{end_node, events_of, heard_on};
ghost use Rattle.law_node_history.specs.Changes.{Change, IsFed, MayChange, changed};
ghost use Rattle.law_node_history.specs.Closes.{ClosesNode};
ghost use Rattle.law_node_history.specs.Histories.{noted};
ghost use Rattle.law_node_streams.specs.Streams.{IsFirstHead};
ghost use Rattle.law_node_traces.specs.Traced.Ours.{deeds, rules};
ghost use Rattle.law_node_traces.specs.Traced.Recordings.{history_at};
ghost use Rattle.law_world_order.specs.Flows.{read_on};
ghost use Rattle.law_world_order.specs.FirstTexts.{IsPort};
ghost use Rattle.law_world_order.specs.Premises.{AtEachMoment, InNewWorlds};
ghost use Rattle.law_world_honest.specs.Honesty.Heads.{HeadIsRead};
ghost use Rattle.law_world_honest.specs.Honesty.Honest.{IsOfNode, well_on};

use crate::honest::pieces::what_is_heard_well_closes_for_the_role;
use crate::honest::ranges::rows_refuse_values_of_acknowledgements;
use law_moves::{texts_are_whole, texts_read_well, what_was_put_reads_well};
use law_node_begins::{
    a_client_asks_by_its_requests, a_client_begins_with_a_request,
    what_a_client_puts_first_reads_well, what_a_server_puts_first_reads_well,
    what_an_in_proxy_puts_first_reads_well, what_an_out_proxy_puts_first_reads_well,
};
use law_node_causes::{a_proxy_refuses_for_a_reason, causes_come_from_their_events};
use law_node_traces::{a_recording_of_roles_is_known, what_is_heard_was_drawn_before};
use law_world_order::what_is_put_is_legible;
use rh_client::ClientRole;
use rh_inproxy::InProxyRole;
use rh_outproxy::OutProxyRole;
use rh_server::ServerRole;

/// In each world of new roles whose numbers are in their ranges, at every moment that changes of
/// lines and half steps reach, and behind each further change, what was heard on a leg reads well
/// at either end: no header breaks a rule, each packet has its name there and its values are in
/// range, and a greeting is the greeting. To a client an answer to an echo request may come, and
/// the packet in that has no name.
pub fn what_is_heard_reads_well<K>()
    ensures { InNewWorlds K (λ m w ours. AtEachMoment m w (λ v by.
        (change : Change) → MayChange rules v change → (leg : Leg) (dir : Dir)
        → (let next = noted v (history_at m w v by.leads) change in
        ReadsWell (well_on leg.kind dir) (read_on leg.kind dir)
        (heard_on leg (events_of next
        (end_node (changed rules m deeds v change).readers leg (receiver dir))))))) }
{
    what_is_put_is_legible::<K>();
    a_recording_of_roles_is_known::<K>();
    what_is_heard_was_drawn_before::<K, ClientRole, ServerRole, InProxyRole, OutProxyRole>();
    what_was_put_reads_well();
    texts_are_whole();
    texts_read_well();
    what_a_client_puts_first_reads_well();
    what_a_server_puts_first_reads_well();
    what_an_in_proxy_puts_first_reads_well();
    what_an_out_proxy_puts_first_reads_well();
    a_proxy_refuses_for_a_reason();
}

/// And where the port of the client's server is one, the head with which the bytes begin that were
/// heard on a leg breaks no rule for the node there: to a proxy it is a request for such a channel
/// as the proxy is for, and to the client a response.
pub fn heads_that_are_heard_break_no_rule<K>()
    ensures { InNewWorlds K (λ m w ours. IsPort ours.config.port
        → AtEachMoment m w (λ v by.
        (change : Change) → MayChange rules v change → (leg : Leg) (dir : Dir) (text : List ℕ)
        → (let next = noted v (history_at m w v by.leads) change in
        IsFirstHead text (heard_on leg (events_of next
        (end_node (changed rules m deeds v change).readers leg (receiver dir))))
        → HeadIsRead leg.kind dir text))) }
{
    what_is_put_is_legible::<K>();
    a_recording_of_roles_is_known::<K>();
    what_is_heard_was_drawn_before::<K, ClientRole, ServerRole, InProxyRole, OutProxyRole>();
    a_client_begins_with_a_request();
    a_client_asks_by_its_requests();
    texts_are_whole();
}

/// So what is fed to a node closes it with no bad frame and no bad packet, with a value out of
/// range only where a row of its role refuses one, and with a bad head only where its role refuses
/// the one with which all bytes begin that it heard on the leg.
pub fn what_is_fed_closes_for_the_role<K>()
    ensures { InNewWorlds K (λ m w ours. AtEachMoment m w (λ v by.
        (leg : Leg) (dir : Dir) (count : ℕ) (node : Who) (why : Cause)
        → MayChange rules v (IsFed leg dir count)
        → ClosesNode rules v (IsFed leg dir count) node why
        → (let next = noted v (history_at m w v by.leads) (IsFed leg dir count) in
        IsOfNode node leg dir (heard_on leg (events_of next (at v leg (receiver dir)))) why))) }
{
    what_is_heard_reads_well::<K>();
    what_is_put_is_legible::<K>();
    a_recording_of_roles_is_known::<K>();
    what_is_heard_well_closes_for_the_role::<ClientRole>();
    what_is_heard_well_closes_for_the_role::<ServerRole>();
    what_is_heard_well_closes_for_the_role::<InProxyRole>();
    what_is_heard_well_closes_for_the_role::<OutProxyRole>();
}

/// So no change that may be there closes a node with `BadFrame` or `BadPacket`, nor with
/// `OutOfRange` but for the value of an acknowledgement; and where the port of the client's server
/// is one, none closes a node with `BadHead`.
pub fn no_change_closes_a_node_for_bad_bytes<K>()
    ensures frame { InNewWorlds K (λ m w ours. AtEachMoment m w (λ v by.
        (change : Change) (node : Who) (leg : Leg) (place : ℕ) (fault : HeadFault)
        → MayChange rules v change
        → ClosesNode rules v change node (BadFrame leg place fault) → ⊥)) }
    ensures packet { InNewWorlds K (λ m w ours. AtEachMoment m w (λ v by.
        (change : Change) (node : Who) (leg : Leg) (place : ℕ) (fault : RtsFault)
        → MayChange rules v change
        → ClosesNode rules v change node (BadPacket leg place fault) → ⊥)) }
    ensures range { InNewWorlds K (λ m w ours. AtEachMoment m w (λ v by.
        (change : Change) (node : Who) (leg : Leg) (command value : ℕ)
        → MayChange rules v change
        → ClosesNode rules v change node (OutOfRange leg command value)
        → command ≡ FLOW_CONTROL_ACK)) }
    ensures head { InNewWorlds K (λ m w ours. IsPort ours.config.port
        → AtEachMoment m w (λ v by.
        (change : Change) (node : Who) (leg : Leg) (place : ℕ) (fault : HttpFault)
        → MayChange rules v change
        → ClosesNode rules v change node (BadHead leg place fault) → ⊥)) }
{
    what_is_fed_closes_for_the_role::<K>();
    heads_that_are_heard_break_no_rule::<K>();
    rows_refuse_values_of_acknowledgements();
    causes_come_from_their_events::<ClientRole>();
    causes_come_from_their_events::<ServerRole>();
    causes_come_from_their_events::<InProxyRole>();
    causes_come_from_their_events::<OutProxyRole>();
}
