//! What the laws of closes stand on, each in one place. These functions do nothing: their contracts
//! are the laws.

ghost use Rattle.law_world_order.specs.Premises.{InNewWorlds};
ghost use Rattle.law_world_windows.specs.Known.{HopLaws, Laws, NodeLaws, NodesLaws, Readings};

use crate::in_proxy::an_in_proxy_sends_within_the_servers_window;
use crate::out_proxy::an_out_proxy_receives_within_its_window;
use crate::server::{a_server_receives_within_its_window, a_server_sends_within_the_proxys_window};
use law_moves::{
    a_piece_reads_well, all_that_was_put_is_read, cuts_change_nothing, first_cause_is_kept,
    what_is_read_is_fine, what_was_put_is_read,
};
use law_node_causes::{
    a_node_closes_once, a_proxy_refuses_for_a_reason, causes_come_from_their_events,
    events_close_with_their_causes,
};
use law_node_history::what_is_heard_was_drawn;
use law_node_traces::{a_recording_of_roles_is_known, what_is_heard_was_drawn_before};
use law_world_honest::what_is_heard_reads_well;
use law_world_order::what_is_put_is_legible;
use rh_client::ClientRole;
use rh_inproxy::InProxyRole;
use rh_outproxy::OutProxyRole;
use rh_server::ServerRole;
use rh_shell::Role;

/// Whatever the role of a node is: how what comes to it is cut makes no difference, it closes once
/// and keeps the first cause, and that tells the event that closed it, and the leg.
pub fn a_node_keeps_its_laws<R: Role>()
    ensures { NodeLaws R.rules }
{
    cuts_change_nothing::<R>();
    first_cause_is_kept::<R>();
    a_node_closes_once::<R>();
    events_close_with_their_causes::<R>();
    causes_come_from_their_events::<R>();
}

/// So it is of a client, a server, an in proxy and an out proxy.
pub fn nodes_keep_their_laws()
    ensures { NodesLaws }
{
    a_node_keeps_its_laws::<ClientRole>();
    a_node_keeps_its_laws::<ServerRole>();
    a_node_keeps_its_laws::<InProxyRole>();
    a_node_keeps_its_laws::<OutProxyRole>();
}

/// What is read of the bytes that came is a front of what was put, and fine; what is read of pieces
/// is what is read of each behind the one before; and where all of them read well, each does.
pub fn what_was_put_reads_back()
    ensures { Readings }
{
    what_was_put_is_read();
    what_is_read_is_fine();
    all_that_was_put_is_read();
    a_piece_reads_well();
}

/// In each world of new roles whose numbers are in their ranges, whatever changes lead to: its
/// history is known, what is put there is legible, and what is heard reads well and was drawn
/// before.
pub fn worlds_keep_their_laws<K>()
    ensures { InNewWorlds K (λ m w ours. Laws m w ours) }
{
    a_recording_of_roles_is_known::<K>();
    what_is_put_is_legible::<K>();
    what_is_heard_reads_well::<K>();
    what_is_heard_was_drawn_before::<K, ClientRole, ServerRole, InProxyRole, OutProxyRole>();
    what_is_heard_was_drawn::<K, ClientRole, ServerRole, InProxyRole, OutProxyRole>();
}

/// On a hop that lies on one leg each end receives within its window and sends within the other's,
/// and a proxy refuses a request for a reason (MS-RPCH 3.2).
pub fn hops_keep_their_laws()
    ensures { HopLaws }
{
    a_server_receives_within_its_window();
    a_server_sends_within_the_proxys_window();
    an_in_proxy_sends_within_the_servers_window();
    an_out_proxy_receives_within_its_window();
    a_proxy_refuses_for_a_reason();
    nodes_keep_their_laws();
    what_was_put_reads_back();
}
