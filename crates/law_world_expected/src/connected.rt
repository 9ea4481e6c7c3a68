//! Where is legs come up at the server of a world of roles. This function does nothing: its
//! contract is the law.

ghost use Rattle.std.specs.Prelude.{◌≡◌, true};
ghost use Rattle.std.specs.List.{list_all};
ghost use Rattle.rh_inproxy.specs.State.{InProxy};
ghost use Rattle.rh_outproxy.specs.OutProxy.{OutProxy};
ghost use Rattle.rh_client.specs.declared.state.ClientRole.{ClientRole};
ghost use Rattle.rh_server.specs.States.{Server};
ghost use Rattle.rh_wires.specs.Readers.{reader_of};
ghost use Rattle.rh_nodes.specs.Opening.{Makers};
ghost use Rattle.rh_nodes.specs.World.{World};
ghost use Rattle.law_node_history.specs.Changes.{of_line};
ghost use Rattle.law_node_history.specs.Histories.{IsNew};
ghost use Rattle.law_node_traces.specs.Traced.Cookies.{ByChanges};
ghost use Rattle.law_node_traces.specs.Traced.Ours.{AreOurs, deeds, rules};
ghost use Rattle.law_node_traces.specs.Traced.Recordings.{history_at};
ghost use Rattle.law_peers_in_channels.specs.InSuccessors.Connected.{AreConnected};
ghost use Rattle.law_world_order.specs.Flows.{IsFlowing, numbers_of};
ghost use Rattle.law_world_order.specs.Pasts.{moves_of};

use law_node_traces::{
    a_recording_of_roles_is_known, channels_come_up_in_order, legs_of_roles_come_up_once,
};
use rh_client::ClientRole;
use rh_inproxy::InProxyRole;
use rh_outproxy::OutProxyRole;
use rh_server::ServerRole;

/// In each world that changes of lines alone reach from new roles, and by whatever moves its
/// streams lead: each is leg that came up at the server is that of an IN channel of its number,
/// which came up at the client and which the in proxy of that number reads (MS-RPCH 3.2.3; the
/// numbers are this profile's).
pub fn is_legs_of_lines_are_connected<K>()
    ensures { (m : Makers K InProxy OutProxy)
        (w : World K ClientRole Server InProxy OutProxy) → IsNew w
        → (ours : AreOurs m w.company w.cast)
        → (v : World K ClientRole Server InProxy OutProxy) (by : ByChanges rules m deeds w v)
        → list_all of_line by.leads.changes ≡ true
        → (flowing : IsFlowing (numbers_of ours) w v (history_at m w v by.leads))
        → AreConnected (reader_of v.readers) (moves_of flowing) }
{
    a_recording_of_roles_is_known::<K>();
    legs_of_roles_come_up_once::<K>();
    channels_come_up_in_order::<K, ClientRole, ServerRole, InProxyRole, OutProxyRole>();
}
