//! The law of streams of the two ends. These functions only call the laws that they join: their
//! contracts are the law.

ghost use Rattle.std.specs.Prelude.{ℕ, List};
ghost use Rattle.rh_http.specs.declared.config.ClientConfig.{ClientConfig};
ghost use Rattle.rh_client.specs.Client as client;
ghost use Rattle.rh_client.specs.State as client_state;
ghost use Rattle.rh_server.specs.Servers as server;
ghost use Rattle.law_moves.specs.Moving.{EndEvent};
ghost use Rattle.law_role_client.specs.Order.{put_log};
ghost use Rattle.law_node_begins.specs.EndsBegin.{client_reads, server_reads};
ghost use Rattle.law_node_order.specs.Sides.{client_feed, server_feed, server_put};
ghost use Rattle.law_node_order.specs.Streams.{StreamsAtEnd};

use law_moves::roles_move_by_their_rules;
use law_node_begins::an_end_never_refuses;
use law_node_causes::{a_clients_leg_comes_up_once, a_servers_leg_comes_up_once};
use law_node_ends::{a_leg_that_a_client_left_stays_unused, a_leg_that_a_server_left_stays_unused};
use law_node_streams::an_ends_stream;
use law_role_client::{a_client_gives_in_order, a_client_takes_in_order};
use law_role_server::{a_server_gives_in_order, a_server_takes_in_order};
use rh_client::ClientRole;
use rh_server::ServerRole;

/// Whatever happens at a client and whatever comes on its legs: the bytes that it drew on each leg
/// are a front of those of messages that it put. The RPC PDUs among them, over its IN channels in
/// order, are a front of those that it was given; it puts nothing on a channel before IN_R1/A5 of
/// each before it, nothing behind that, no PDU behind END/A1, and END/A1 only once it was told to
/// close and all PDUs that it was given were put.
///
/// The PDUs that were taken from it are a front of those in the bytes that it was fed on its OUT
/// channels, in order: of each that up to OUT_R1/A10, and of no channel behind one without it.
/// Bytes are fed where the node goes on, on a leg that is up and of use; others change nothing.
pub fn a_clients_streams_keep_order()
    ensures { (config : ClientConfig) (events : List EndEvent)
        → StreamsAtEnd client.rules client.acts (client_state.first config) client.rooms
        client_reads put_log client_feed events }
{
    an_ends_stream::<ClientRole>();
    an_end_never_refuses();
    a_leg_that_a_client_left_stays_unused();
    a_clients_leg_comes_up_once();
    roles_move_by_their_rules::<ClientRole>();
    a_client_gives_in_order();
    a_client_takes_in_order();
}

/// The same at a server, which puts on its OUT channels, up to OUT_R1/A9 of each and END/B1, and is
/// fed on its is legs, up to IN_R1/A6 of each. A number that IN_R2/A2 gave has no leg, and is
/// passed over.
pub fn a_servers_streams_keep_order()
    ensures { (window : ℕ) (events : List EndEvent)
        → StreamsAtEnd server.rules server.acts (server.first window) server.rooms server_reads
        server_put server_feed events }
{
    an_ends_stream::<ServerRole>();
    an_end_never_refuses();
    a_leg_that_a_server_left_stays_unused();
    a_servers_leg_comes_up_once();
    roles_move_by_their_rules::<ServerRole>();
    a_server_gives_in_order();
    a_server_takes_in_order();
}
