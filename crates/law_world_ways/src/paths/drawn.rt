//! Legs that nodes forget. This function does nothing: its contract is the law.

ghost use Rattle.rh_client.specs.declared.state.ClientRole.{ClientRole};
ghost use Rattle.law_node_traces.specs.Traced.Recordings.{history_at};
ghost use Rattle.law_world_order.specs.Flows.{numbers_of};
ghost use Rattle.law_world_order.specs.Premises.{AtEachMoment, InNewWorlds};
ghost use Rattle.law_world_ways.specs.OnPaths.Forgotten.{DrawnDirections};

use law_moves::{
    ends_move_by_their_rules, roles_move_by_their_rules, what_is_read_is_fine, what_was_put_is_read,
};
use law_node_begins::{
    a_client_begins_with_a_request, a_server_begins_with_a_greeting, an_end_never_refuses,
    an_in_proxy_begins, an_in_proxy_refuses_first, an_out_proxy_begins, an_out_proxy_refuses_first,
    proxies_keep_their_pipes,
};
use law_node_causes::{
    a_clients_leg_comes_up_once, a_servers_leg_comes_up_once, an_in_proxys_leg_comes_up_once,
    an_out_proxys_leg_comes_up_once,
};
use law_node_ends::{
    a_leg_that_a_client_left_stays_unused, a_leg_that_a_server_left_stays_unused,
    a_leg_that_an_in_proxy_left_stays_unused, a_leg_that_an_out_proxy_left_stays_unused,
};
use law_node_history::{a_leg_is_read_at_its_ends, what_is_heard_was_drawn};
use law_node_streams::{
    a_nodes_stream, a_nodes_stream_grows, an_ends_stream, an_ends_stream_grows,
};
use law_node_traces::{
    a_recording_of_roles_is_known, channels_come_up_in_order, legs_of_roles_come_up_once,
};
use law_role_client::what_a_client_puts_reads_back;
use law_role_inproxy::what_an_in_proxy_puts_reads_back;
use law_role_outproxy::what_an_out_proxy_puts_reads_back;
use law_role_server::what_a_server_puts_reads_back;
use law_world_order::{directions_are_joined, what_is_put_is_legible};
use rh_client::ClientRole;
use rh_inproxy::InProxyRole;
use rh_outproxy::OutProxyRole;
use rh_server::ServerRole;

/// In each world of new roles whose numbers are in their ranges, at every moment that changes of
/// lines and half steps reach, the streams of the nodes are joined in both directions by ones with
/// which this holds: where a node was not told that a leg ended or broke, keeps no end of it any
/// more, and refuses nobody there, all that it put there was drawn, whether it goes on or closed.
pub fn what_was_forgotten_was_drawn<K>()
    ensures { InNewWorlds K (λ m w ours. AtEachMoment m w (λ v by.
        DrawnDirections (numbers_of ours) v (history_at m w v by.leads))) }
{
    directions_are_joined::<K>();
    what_is_put_is_legible::<K>();
    an_ends_stream_grows::<ClientRole>();
    an_ends_stream_grows::<ServerRole>();
    a_nodes_stream_grows::<InProxyRole>();
    a_nodes_stream_grows::<OutProxyRole>();
    an_ends_stream::<ClientRole>();
    an_ends_stream::<ServerRole>();
    a_nodes_stream::<InProxyRole>();
    a_nodes_stream::<OutProxyRole>();
    roles_move_by_their_rules::<ClientRole>();
    roles_move_by_their_rules::<ServerRole>();
    roles_move_by_their_rules::<InProxyRole>();
    roles_move_by_their_rules::<OutProxyRole>();
    ends_move_by_their_rules::<ClientRole>();
    ends_move_by_their_rules::<ServerRole>();
    a_clients_leg_comes_up_once();
    a_servers_leg_comes_up_once();
    an_in_proxys_leg_comes_up_once();
    an_out_proxys_leg_comes_up_once();
    a_leg_that_a_client_left_stays_unused();
    a_leg_that_a_server_left_stays_unused();
    a_leg_that_an_in_proxy_left_stays_unused();
    a_leg_that_an_out_proxy_left_stays_unused();
    an_end_never_refuses();
    proxies_keep_their_pipes();
    a_client_begins_with_a_request();
    a_server_begins_with_a_greeting();
    an_in_proxy_begins();
    an_in_proxy_refuses_first();
    an_out_proxy_begins();
    an_out_proxy_refuses_first();
    what_a_client_puts_reads_back();
    what_a_server_puts_reads_back();
    what_an_in_proxy_puts_reads_back();
    what_an_out_proxy_puts_reads_back();
    what_was_put_is_read();
    what_is_read_is_fine();
    what_is_heard_was_drawn::<K, ClientRole, ServerRole, InProxyRole, OutProxyRole>();
    a_leg_is_read_at_its_ends::<K, ClientRole, ServerRole, InProxyRole, OutProxyRole>();
    a_recording_of_roles_is_known::<K>();
    legs_of_roles_come_up_once::<K>();
    channels_come_up_in_order::<K, ClientRole, ServerRole, InProxyRole, OutProxyRole>();
}
