//! What a proxy drew where a client closed for a response, in a world of roles. These functions do
//! nothing: their contracts are the laws.

ghost use Rattle.std.specs.Prelude.{◌≡◌, ◌⊎◌, ℕ};
ghost use Rattle.rh_http.specs.declared.lengths.TheConstants.{SERVICE_UNAVAILABLE};
ghost use Rattle.rh_http.specs.Lengths.{success};
ghost use Rattle.rh_line.specs.declared.cause.Cause.TheVariants as cause;
ghost use Rattle.rh_line.specs.declared.leg.LegKind.TheVariants.{ClientIn, ClientOut};
ghost use Rattle.rh_line.specs.declared.leg.LegKind.TheVariants.{InServer, OutServer};
ghost use Rattle.rh_record.specs.declared.answer.Who.TheVariants as who;
ghost use Rattle.rh_shell.specs.Shells.{begun};
ghost use Rattle.rh_inproxy.specs.Machine as in_proxy;
ghost use Rattle.rh_inproxy.specs.State.{InProxy};
ghost use Rattle.rh_outproxy.specs.declared.out_proxy.TheConstants.{ROOMS};
ghost use Rattle.rh_outproxy.specs.Machine as out_proxy;
ghost use Rattle.rh_outproxy.specs.OutProxy.{OutProxy, new_proxy};
ghost use Rattle.rh_client.specs.declared.state.ClientRole.{ClientRole};
ghost use Rattle.rh_server.specs.States.{Server};
ghost use Rattle.rh_wires.specs.Readers.{reader_of};
ghost use Rattle.rh_nodes.specs.Opening.{Makers};
ghost use Rattle.rh_nodes.specs.Settling.{leg_at};
ghost use Rattle.rh_nodes.specs.World.{World};
ghost use Rattle.law_moves.specs.Laws.{ClosedWith};
ghost use Rattle.law_node_history.specs.Carried.{drawn_by, drawn_on};
ghost use Rattle.law_node_history.specs.Changes.{Leads};
ghost use Rattle.law_node_history.specs.Histories.{IsNew, all_noted, nothing};
ghost use Rattle.law_node_traces.specs.Traced.Ours.{AreOurs, deeds, rules};
ghost use Rattle.law_node_traces.specs.Traced.Recordings.{history_at};
ghost use Rattle.law_world_order.specs.FirstTexts.{IsPort};
ghost use Rattle.law_world_order.specs.Premises.{AtEachMoment, InNewWorlds};
ghost use Rattle.law_world_honest.specs.Refusals.Refused.{BeginsRefused, DrewRefusal, IsUnreached};

use crate::refused::clients::what_a_client_holds_of_a_head;
use law_moves::texts_are_whole;
use law_node_begins::{
    a_client_asks_by_its_requests, a_client_begins_with_a_request,
    an_in_proxy_answers_echoes_alone, an_in_proxy_refuses_first, an_out_proxy_begins,
    an_out_proxy_refuses_first, proxies_keep_their_pipes,
};
use law_node_causes::a_proxy_refuses_for_a_reason;
use law_node_ends::{
    a_leg_that_an_in_proxy_left_stays_unused, a_leg_that_an_out_proxy_left_stays_unused,
};
use law_node_history::what_is_heard_was_drawn;
use law_node_streams::a_nodes_stream;
use law_node_traces::{
    a_proxy_draws_503_where_its_server_is_lost, a_recording_of_roles_is_known,
    legs_of_roles_come_up_once,
};
use law_world_order::directions_are_joined;
use rh_client::ClientRole;
use rh_inproxy::InProxyRole;
use rh_outproxy::OutProxyRole;
use rh_server::ServerRole;

/// Whatever changes lead from a new world of roles: where the client is closed with `HttpRefused`,
/// what the proxy at the other end of that leg drew there begins with the response that refuses the
/// channel with that status.
pub fn a_refused_client_heard_what_was_drawn<K>()
    ensures out_leg { (m : Makers K InProxy OutProxy)
        (w v : World K ClientRole Server InProxy OutProxy) → IsNew w → AreOurs m w.company w.cast
        → (leads : Leads rules m deeds w v) → (n status : ℕ)
        → ClosedWith (cause.HttpRefused (leg_at ClientOut n) status) v.company.client.course
        → BeginsRefused (drawn_by rules m deeds w.company v.cast
        (all_noted rules m deeds w nothing leads.changes) (who.Out n) (leg_at ClientOut n))
        (leg_at ClientOut n) status }
    ensures in_leg { (m : Makers K InProxy OutProxy)
        (w v : World K ClientRole Server InProxy OutProxy) → IsNew w → AreOurs m w.company w.cast
        → (leads : Leads rules m deeds w v) → (n status : ℕ)
        → ClosedWith (cause.HttpRefused (leg_at ClientIn n) status) v.company.client.course
        → BeginsRefused (drawn_by rules m deeds w.company v.cast
        (all_noted rules m deeds w nothing leads.changes) (who.In (reader_of v.readers n))
        (leg_at ClientIn n)) (leg_at ClientIn n) status }
{
    what_a_client_holds_of_a_head();
    a_recording_of_roles_is_known::<K>();
    what_is_heard_was_drawn::<K, ClientRole, ServerRole, InProxyRole, OutProxyRole>();
}

/// In each world of new roles whose numbers are in their ranges, at every moment that changes of
/// lines and half steps reach: where the client is closed with `HttpRefused` of an OUT channel, all
/// that the out proxy of its number drew there is one refusal, which has that status.
pub fn a_refused_out_channel_was_refused_by_its_proxy<K>()
    ensures { InNewWorlds K (λ m w ours. AtEachMoment m w (λ v by.
        (n status : ℕ)
        → ClosedWith (cause.HttpRefused (leg_at ClientOut n) status) v.company.client.course
        → DrewRefusal (drawn_on out_proxy.rules (begun (new_proxy (ours.out_config n)) ROOMS)
        (leg_at ClientOut n) ((history_at m w v by.leads).outs n)) status)) }
{
    what_a_client_holds_of_a_head();
    a_recording_of_roles_is_known::<K>();
    what_is_heard_was_drawn::<K, ClientRole, ServerRole, InProxyRole, OutProxyRole>();
    directions_are_joined::<K>();
}

/// The same of an IN channel: all that the in proxy that reads it drew there is one refusal of that
/// status; or the status is 200, of the answer to an echo request.
pub fn a_refused_in_channel_was_refused_by_its_proxy<K>()
    ensures { InNewWorlds K (λ m w ours. AtEachMoment m w (λ v by.
        (n status : ℕ)
        → ClosedWith (cause.HttpRefused (leg_at ClientIn n) status) v.company.client.course
        → (let reader = reader_of v.readers n in
        (status ≡ success)
        ⊎ DrewRefusal (drawn_on in_proxy.rules (in_proxy.first_node (ours.in_config reader))
        (leg_at ClientIn n) ((history_at m w v by.leads).ins reader)) status))) }
{
    a_refused_client_heard_what_was_drawn::<K>();
    directions_are_joined::<K>();
    an_in_proxy_refuses_first();
}

/// In each world of new roles whose numbers are in their ranges, at every moment that changes of
/// lines and half steps reach: where the client is closed with `HttpRefused` of a channel and
/// status 503, the proxy that reads that channel is the one of its number, and was told that its
/// leg to the server broke, which has that number too and had never come up there.
pub fn a_client_refused_with_503_lost_its_server<K>()
    ensures out_channel { InNewWorlds K (λ m w ours. AtEachMoment m w (λ v by.
        (n : ℕ)
        → ClosedWith (cause.HttpRefused (leg_at ClientOut n) SERVICE_UNAVAILABLE)
        v.company.client.course
        → IsUnreached (leg_at OutServer n) ((history_at m w v by.leads).outs n))) }
    ensures in_channel { InNewWorlds K (λ m w ours. AtEachMoment m w (λ v by.
        (n : ℕ)
        → ClosedWith (cause.HttpRefused (leg_at ClientIn n) SERVICE_UNAVAILABLE)
        v.company.client.course
        → (reader_of v.readers n ≡ n)
        × IsUnreached (leg_at InServer n) ((history_at m w v by.leads).ins n))) }
{
    a_refused_out_channel_was_refused_by_its_proxy::<K>();
    a_refused_in_channel_was_refused_by_its_proxy::<K>();
    a_recording_of_roles_is_known::<K>();
    legs_of_roles_come_up_once::<K>();
    a_proxy_draws_503_where_its_server_is_lost::<K>();
    a_nodes_stream::<InProxyRole>();
    a_nodes_stream::<OutProxyRole>();
    proxies_keep_their_pipes();
    a_leg_that_an_in_proxy_left_stays_unused();
    a_leg_that_an_out_proxy_left_stays_unused();
    an_out_proxy_begins();
    a_proxy_refuses_for_a_reason();
}

/// And where the port of the client's server is one, a client is closed with `HttpRefused` for no
/// other reason: each status is 503, and the proxy that reads the channel, which is the one of its
/// number, was told that its leg to the server broke, which had never come up there. Proxies refuse
/// no request of such a client, and take none for that of an echo.
pub fn a_refused_client_lost_its_server<K>()
    ensures out_channel { InNewWorlds K (λ m w ours. IsPort ours.config.port
        → AtEachMoment m w (λ v by.
        (n status : ℕ)
        → ClosedWith (cause.HttpRefused (leg_at ClientOut n) status) v.company.client.course
        → (status ≡ SERVICE_UNAVAILABLE)
        × IsUnreached (leg_at OutServer n) ((history_at m w v by.leads).outs n))) }
    ensures in_channel { InNewWorlds K (λ m w ours. IsPort ours.config.port
        → AtEachMoment m w (λ v by.
        (n status : ℕ)
        → ClosedWith (cause.HttpRefused (leg_at ClientIn n) status) v.company.client.course
        → (status ≡ SERVICE_UNAVAILABLE) × (reader_of v.readers n ≡ n)
        × IsUnreached (leg_at InServer n) ((history_at m w v by.leads).ins n))) }
{
    a_refused_client_heard_what_was_drawn::<K>();
    a_client_refused_with_503_lost_its_server::<K>();
    directions_are_joined::<K>();
    a_recording_of_roles_is_known::<K>();
    what_is_heard_was_drawn::<K, ClientRole, ServerRole, InProxyRole, OutProxyRole>();
    an_out_proxy_refuses_first();
    an_in_proxy_refuses_first();
    an_in_proxy_answers_echoes_alone();
    a_client_begins_with_a_request();
    a_client_asks_by_its_requests();
    texts_are_whole();
}
