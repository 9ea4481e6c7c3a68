//! Each leg comes up at most once at each of the real nodes. The function does nothing: its
//! contract is the law.

ghost use Rattle.rh_inproxy.specs.State.{InProxy};
ghost use Rattle.rh_outproxy.specs.OutProxy.{OutProxy};
ghost use Rattle.rh_client.specs.declared.state.ClientRole.{ClientRole};
ghost use Rattle.rh_server.specs.States.{Server};
ghost use Rattle.rh_company.specs.Company.{Company};
ghost use Rattle.rh_nodes.specs.Opening.{Makers};
ghost use Rattle.law_node_history.specs.Carried.{LegsComeUpOnce};
ghost use Rattle.law_node_traces.specs.Traced.Ours.{AreOurs, deeds, rules};

use law_node_causes::{
    a_clients_leg_comes_up_once, a_servers_leg_comes_up_once, an_in_proxys_leg_comes_up_once,
    an_out_proxys_leg_comes_up_once,
};

/// Whatever happens at the client, the server or a proxy of the real roles, a leg that it asks for
/// may come up, one that came up may not come up again, and at the client come up only legs that
/// are its own: what the laws of the world of roles ask.
pub fn legs_of_roles_come_up_once<K>()
    ensures { (m : Makers K InProxy OutProxy)
        (first : Company ClientRole Server InProxy OutProxy) (cast : K) → AreOurs m first cast
        → LegsComeUpOnce rules m deeds first cast }
{
    a_clients_leg_comes_up_once();
    a_servers_leg_comes_up_once();
    an_in_proxys_leg_comes_up_once();
    an_out_proxys_leg_comes_up_once();
}
