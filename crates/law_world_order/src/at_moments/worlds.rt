//! The moment of a world of roles. This function does nothing: its contract is the law.

ghost use Rattle.rh_client.specs.declared.state.ClientRole.{ClientRole};
ghost use Rattle.law_world_order.specs.Pasts.{HasMoment};
ghost use Rattle.law_world_order.specs.Premises.{AtEachMoment, InNewWorlds};

use law_moves::{what_is_read_is_fine, what_was_put_is_read};
use law_node_begins::{
    a_client_begins_with_a_request, a_server_begins_with_a_greeting, an_end_never_refuses,
    an_in_proxy_begins, an_in_proxy_refuses_first, an_out_proxy_begins, an_out_proxy_refuses_first,
    proxies_keep_their_pipes,
};
use law_node_ends::{
    a_leg_that_a_client_left_stays_unused, a_leg_that_a_server_left_stays_unused,
    a_leg_that_an_in_proxy_left_stays_unused, a_leg_that_an_out_proxy_left_stays_unused,
};
use law_node_history::{a_leg_is_read_at_its_ends, what_is_heard_was_drawn};
use law_node_streams::{
    a_nodes_stream, a_nodes_stream_grows, an_ends_stream, an_ends_stream_grows,
};
use law_node_traces::{
    a_recording_of_roles_is_known, channels_come_up_in_order, legs_of_roles_come_up_once,
    proxies_are_numbered, what_is_heard_was_drawn_before,
};
use law_role_client::what_a_client_puts_reads_back;
use law_role_inproxy::what_an_in_proxy_puts_reads_back;
use law_role_outproxy::what_an_out_proxy_puts_reads_back;
use law_role_server::what_a_server_puts_reads_back;
use rh_client::ClientRole;
use rh_inproxy::InProxyRole;
use rh_outproxy::OutProxyRole;
use rh_server::ServerRole;

/// In each world that changes of lines and half steps reach from new roles whose numbers are in
/// their ranges, the moves of the roles are allowed and in turn, with true counts, and what came at
/// the one end of a leg is of what was put at the other. Where no two legs of one kind came up at
/// the client under one cookie, it is at a moment: each front of the moves of the client, or of the
/// server, was all of them at a moment before, at which the others had made fronts of theirs.
pub fn a_world_of_roles_is_at_a_moment<K>()
    ensures { InNewWorlds K (λ m w ours. AtEachMoment m w (λ v by.
        HasMoment m w ours v by)) }
{
    what_was_put_is_read();
    what_is_read_is_fine();
    an_ends_stream::<ClientRole>();
    an_ends_stream::<ServerRole>();
    a_nodes_stream::<InProxyRole>();
    a_nodes_stream::<OutProxyRole>();
    an_ends_stream_grows::<ClientRole>();
    an_ends_stream_grows::<ServerRole>();
    a_nodes_stream_grows::<InProxyRole>();
    a_nodes_stream_grows::<OutProxyRole>();
    an_end_never_refuses();
    proxies_keep_their_pipes();
    a_leg_that_a_client_left_stays_unused();
    a_leg_that_a_server_left_stays_unused();
    a_leg_that_an_in_proxy_left_stays_unused();
    a_leg_that_an_out_proxy_left_stays_unused();
    a_client_begins_with_a_request();
    a_server_begins_with_a_greeting();
    an_in_proxy_begins();
    an_in_proxy_refuses_first();
    an_out_proxy_begins();
    an_out_proxy_refuses_first();
    what_a_client_puts_reads_back();
    what_a_server_puts_reads_back();
    what_an_in_proxy_puts_reads_back();
    what_an_out_proxy_puts_reads_back();
    what_is_heard_was_drawn_before::<K, ClientRole, ServerRole, InProxyRole, OutProxyRole>();
    what_is_heard_was_drawn::<K, ClientRole, ServerRole, InProxyRole, OutProxyRole>();
    a_leg_is_read_at_its_ends::<K, ClientRole, ServerRole, InProxyRole, OutProxyRole>();
    a_recording_of_roles_is_known::<K>();
    legs_of_roles_come_up_once::<K>();
    proxies_are_numbered::<K, ClientRole, ServerRole, InProxyRole, OutProxyRole>();
    channels_come_up_in_order::<K, ClientRole, ServerRole, InProxyRole, OutProxyRole>();
}
