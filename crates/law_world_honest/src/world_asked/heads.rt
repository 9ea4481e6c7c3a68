//! The heads that come to the out proxies of a world of roles. This function only calls the laws
//! that it stands on: its contract is the law.

ghost use Rattle.std.specs.Prelude.{ℕ};
ghost use Rattle.std.specs.List.{AllByRecursion};
ghost use Rattle.rh_inproxy.specs.State.{InProxy};
ghost use Rattle.rh_outproxy.specs.OutProxy.{OutProxy};
ghost use Rattle.rh_client.specs.declared.state.ClientRole.{ClientRole};
ghost use Rattle.rh_server.specs.States.{Server};
ghost use Rattle.rh_nodes.specs.Opening.{Makers};
ghost use Rattle.rh_nodes.specs.World.{World};
ghost use Rattle.law_node_history.specs.Histories.{IsNew};
ghost use Rattle.law_peers_expects.specs.Asked.Requests.{IsRequest};
ghost use Rattle.law_node_traces.specs.Traced.Cookies.{ByChanges};
ghost use Rattle.law_node_traces.specs.Traced.Ours.{AreOurs, deeds, rules};
ghost use Rattle.law_node_traces.specs.Traced.Recordings.{history_at};
ghost use Rattle.law_world_order.specs.Flows.{IsFlowing, numbers_of};
ghost use Rattle.law_world_order.specs.FirstTexts.{IsPort};
ghost use Rattle.law_world_honest.specs.WorldAsked.{IsOwnHead};

use law_moves::texts_are_whole;
use law_node_history::what_is_heard_was_drawn;
use law_node_traces::a_recording_of_roles_is_known;
use law_role_client_rows::a_client_opens_out_channels_in_order;
use rh_client::ClientRole;
use rh_inproxy::InProxyRole;
use rh_outproxy::OutProxyRole;
use rh_server::ServerRole;

/// In each world that changes of lines and half steps lead to from new roles, whichever moves lead
/// to the roles: each head that came to an out proxy from its client is the request that the client
/// put for the channel of that number; and where the port of the client's server is one, it is read
/// as a request for a new channel on the first, and for a successor on each other, and never as
/// that of an echo (MS-RPCH 2.1.2; successors are this profile's).
pub fn an_out_proxy_hears_its_clients_request<K>()
    ensures own { (m : Makers K InProxy OutProxy)
        (w : World K ClientRole Server InProxy OutProxy) → IsNew w
        → (ours : AreOurs m w.company w.cast)
        → (v : World K ClientRole Server InProxy OutProxy) (by : ByChanges rules m deeds w v)
        → (flowing : IsFlowing (numbers_of ours) w v (history_at m w v by.leads)) → (n : ℕ)
        → AllByRecursion (IsOwnHead ours.config n) (flowing.flows.outs n).leads.moves }
    ensures read { (m : Makers K InProxy OutProxy)
        (w : World K ClientRole Server InProxy OutProxy) → IsNew w
        → (ours : AreOurs m w.company w.cast) → IsPort ours.config.port
        → (v : World K ClientRole Server InProxy OutProxy) (by : ByChanges rules m deeds w v)
        → (flowing : IsFlowing (numbers_of ours) w v (history_at m w v by.leads)) → (n : ℕ)
        → AllByRecursion (IsRequest n) (flowing.flows.outs n).leads.moves }
{
    a_client_opens_out_channels_in_order();
    a_recording_of_roles_is_known::<K>();
    what_is_heard_was_drawn::<K, ClientRole, ServerRole, InProxyRole, OutProxyRole>();
    texts_are_whole();
}
