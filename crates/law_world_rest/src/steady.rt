//! What the nodes of roles put, and what their ends take. This function does nothing: its contract
//! is the law.

ghost use Rattle.law_node_traces.specs.Traced.Ours.{deeds, rules};
ghost use Rattle.law_world_order.specs.Premises.{AtEachMoment, InNewWorlds};
ghost use Rattle.law_world_rest.specs.Steady.{AreSteady};

use law_moves::{what_is_read_is_fine, what_was_put_is_read};
use law_node_history::{a_leg_is_read_at_its_ends, what_is_heard_was_drawn};
use law_node_traces::{
    a_recording_of_roles_is_known, channels_come_up_in_order, legs_of_roles_come_up_once,
};
use law_role_client::what_a_client_puts_reads_back;
use law_role_inproxy::what_an_in_proxy_puts_reads_back;
use law_role_outproxy::what_an_out_proxy_puts_reads_back;
use law_role_server::what_a_server_puts_reads_back;
use law_world_order::what_is_put_is_legible;
use rh_client::ClientRole;
use rh_inproxy::InProxyRole;
use rh_outproxy::OutProxyRole;
use rh_server::ServerRole;

/// In each world of new roles whose numbers are in their ranges, at every moment that changes of
/// lines and half steps reach: each message that a node puts has bytes, so that one that draws none
/// put none; and a take where no PDU is there leaves the end as it is.
pub fn nodes_of_roles_are_steady<K>()
    ensures { InNewWorlds K (λ m w ours. AtEachMoment m w (λ v by.
        AreSteady rules deeds v.company)) }
{
    what_was_put_is_read();
    what_is_read_is_fine();
    what_a_client_puts_reads_back();
    what_a_server_puts_reads_back();
    what_an_in_proxy_puts_reads_back();
    what_an_out_proxy_puts_reads_back();
    what_is_put_is_legible::<K>();
    what_is_heard_was_drawn::<K, ClientRole, ServerRole, InProxyRole, OutProxyRole>();
    a_leg_is_read_at_its_ends::<K, ClientRole, ServerRole, InProxyRole, OutProxyRole>();
    a_recording_of_roles_is_known::<K>();
    legs_of_roles_come_up_once::<K>();
    channels_come_up_in_order::<K, ClientRole, ServerRole, InProxyRole, OutProxyRole>();
}
