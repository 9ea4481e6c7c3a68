//! What is known of the roles of a world. This function does nothing: its contract is the law.

ghost use Rattle.law_world_expected.specs.Known.{ClientKnows, RolesKnow};

use law_moves::texts_are_whole;
use law_node_begins::{
    a_client_asks_by_its_requests, an_end_never_refuses, proxies_keep_their_pipes,
};
use law_node_causes::{
    a_clients_leg_comes_up_once, a_servers_leg_comes_up_once, an_in_proxys_leg_comes_up_once,
    an_out_proxys_leg_comes_up_once,
};
use law_node_ends::{
    a_leg_that_a_client_left_stays_unused, a_leg_that_a_server_left_stays_unused,
    a_leg_that_an_in_proxy_left_stays_unused, a_leg_that_an_out_proxy_left_stays_unused,
};

/// Whatever happens to the four roles: proxies keep their pipes, ends refuse no head, a leg that was
/// left stays unused, each leg comes up once and is known as one that was up, and a client asks by
/// its requests, which are whole heads.
pub fn roles_know_their_legs()
    ensures roles { RolesKnow }
    ensures client { ClientKnows }
{
    proxies_keep_their_pipes();
    a_leg_that_a_client_left_stays_unused();
    a_leg_that_an_in_proxy_left_stays_unused();
    a_leg_that_an_out_proxy_left_stays_unused();
    a_leg_that_a_server_left_stays_unused();
    an_end_never_refuses();
    a_clients_leg_comes_up_once();
    an_in_proxys_leg_comes_up_once();
    an_out_proxys_leg_comes_up_once();
    a_servers_leg_comes_up_once();
    a_client_asks_by_its_requests();
    texts_are_whole();
}
