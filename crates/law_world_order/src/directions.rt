//! Both directions of a world of roles. These functions do nothing: their contracts are the laws.

ghost use Rattle.rh_client.specs.declared.state.ClientRole.{ClientRole};
ghost use Rattle.law_node_traces.specs.Traced.Recordings.{history_at};
ghost use Rattle.law_world_order.specs.Directions.{BothMark, Directions};
ghost use Rattle.law_world_order.specs.Flows.{IsFlowing, numbers_of};
ghost use Rattle.law_world_order.specs.Premises.{AtEachMoment, InNewWorlds};

use law_moves::{what_is_read_is_fine, what_was_put_is_read};
use law_node_begins::{
    a_client_begins_with_a_request, a_server_begins_with_a_greeting, an_end_never_refuses,
    an_in_proxy_begins, an_in_proxy_refuses_first, an_out_proxy_begins, an_out_proxy_refuses_first,
    proxies_keep_their_pipes,
};
use law_node_ends::{
    a_leg_that_a_client_left_stays_unused, a_leg_that_a_server_left_stays_unused,
    a_leg_that_an_in_proxy_left_stays_unused, a_leg_that_an_out_proxy_left_stays_unused,
};
use law_node_history::{a_leg_is_read_at_its_ends, what_is_heard_was_drawn};
use law_node_streams::{a_nodes_stream, an_ends_stream};
use law_node_traces::{
    a_recording_of_roles_is_known, channels_come_up_in_order, legs_of_roles_come_up_once,
    nodes_hear_in_turn, what_is_heard_was_drawn_before,
};
use law_order::nothing_stands_behind_a_mark;
use law_peers_routes::{what_goes_down_is_a_route, what_goes_up_is_a_route};
use law_role_client::what_a_client_puts_reads_back;
use law_role_inproxy::what_an_in_proxy_puts_reads_back;
use law_role_outproxy::what_an_out_proxy_puts_reads_back;
use law_role_server::what_a_server_puts_reads_back;
use rh_client::ClientRole;
use rh_inproxy::InProxyRole;
use rh_outproxy::OutProxyRole;
use rh_server::ServerRole;

/// In each world of new roles whose numbers are in their ranges, at every moment that changes of
/// lines and half steps reach, each node has its stream: what it put on a leg begins as it is read
/// at the other end, may go on the pipe that is read there, and spells what was drawn.
pub fn what_is_put_is_legible<K>()
    ensures { InNewWorlds K (λ m w ours. AtEachMoment m w (λ v by.
        IsFlowing (numbers_of ours) w v (history_at m w v by.leads))) }
{
    what_was_put_is_read();
    what_is_read_is_fine();
    an_ends_stream::<ClientRole>();
    an_ends_stream::<ServerRole>();
    a_nodes_stream::<InProxyRole>();
    a_nodes_stream::<OutProxyRole>();
    an_end_never_refuses();
    proxies_keep_their_pipes();
    a_leg_that_a_client_left_stays_unused();
    a_leg_that_a_server_left_stays_unused();
    a_leg_that_an_in_proxy_left_stays_unused();
    a_leg_that_an_out_proxy_left_stays_unused();
    a_client_begins_with_a_request();
    a_server_begins_with_a_greeting();
    an_in_proxy_begins();
    an_in_proxy_refuses_first();
    an_out_proxy_begins();
    an_out_proxy_refuses_first();
    what_a_client_puts_reads_back();
    what_a_server_puts_reads_back();
    what_an_in_proxy_puts_reads_back();
    what_an_out_proxy_puts_reads_back();
    nodes_hear_in_turn::<K, ClientRole, ServerRole, InProxyRole, OutProxyRole>();
    what_is_heard_was_drawn_before::<K, ClientRole, ServerRole, InProxyRole, OutProxyRole>();
    a_leg_is_read_at_its_ends::<K, ClientRole, ServerRole, InProxyRole, OutProxyRole>();
    a_recording_of_roles_is_known::<K>();
    legs_of_roles_come_up_once::<K>();
    channels_come_up_in_order::<K, ClientRole, ServerRole, InProxyRole, OutProxyRole>();
}

/// In each world of new roles whose numbers are in their ranges, at every moment that changes of
/// lines and half steps reach, the streams of the nodes are joined in both directions: on each leg
/// what was read is of what was put at its other end.
pub fn directions_are_joined<K>()
    ensures { InNewWorlds K (λ m w ours. AtEachMoment m w (λ v by.
        Directions (numbers_of ours) v (history_at m w v by.leads))) }
{
    what_is_put_is_legible::<K>();
    a_leg_is_read_at_its_ends::<K, ClientRole, ServerRole, InProxyRole, OutProxyRole>();
    what_is_heard_was_drawn::<K, ClientRole, ServerRole, InProxyRole, OutProxyRole>();
    a_recording_of_roles_is_known::<K>();
    legs_of_roles_come_up_once::<K>();
    channels_come_up_in_order::<K, ClientRole, ServerRole, InProxyRole, OutProxyRole>();
}

/// So on no leg of either direction stands anything behind a handover mark (IN_R1/A5 and A6,
/// OUT_R1/A9 and A10), nor an RPC PDU or END behind END.
pub fn marks_are_last<K>()
    ensures { InNewWorlds K (λ m w ours. AtEachMoment m w (λ v by.
        BothMark (numbers_of ours) v (history_at m w v by.leads))) }
{
    directions_are_joined::<K>();
    what_goes_down_is_a_route();
    what_goes_up_is_a_route();
    nothing_stands_behind_a_mark();
}
