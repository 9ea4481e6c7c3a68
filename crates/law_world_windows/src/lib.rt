//! The hops that lie on one leg: from an in proxy to the server, and from the server to an out
//! proxy. Its functions do nothing: their contracts are the laws.
#![tactic(auto)]

pub mod client_hops;
pub mod in_proxy;
pub mod kept_hops;
pub mod known;
pub mod out_proxy;
pub mod server;
pub mod windows;
pub mod worlds;

pub use client_hops::no_hop_of_a_client_closes_a_node;
pub use in_proxy::an_in_proxy_sends_within_the_servers_window;
pub use kept_hops::{hops_of_a_recording_are_kept, hops_on_one_leg_are_kept};
pub use known::{
    a_node_keeps_its_laws, hops_keep_their_laws, nodes_keep_their_laws, what_was_put_reads_back,
    worlds_keep_their_laws,
};
pub use out_proxy::an_out_proxy_receives_within_its_window;
pub use server::{a_server_receives_within_its_window, a_server_sends_within_the_proxys_window};
pub use windows::{
    a_window_is_exceeded_for_a_row, no_window_closes_a_node,
    no_window_closes_a_node_of_a_recording, rows_refuse_on_their_legs,
};
pub use worlds::no_hop_on_one_leg_closes_a_node;
