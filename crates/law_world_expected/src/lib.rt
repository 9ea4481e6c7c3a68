//! What comes next is expected: no change of a world of roles closes a node since a packet, an RPC
//! PDU or a greeting came that was not to come there, or that named another cookie. Its functions
//! do nothing: their contracts are the laws.
#![tactic(auto)]

pub mod connected;
pub mod expecting;
pub mod known;
pub mod pdus_in_recordings;
pub mod pdus_in_worlds;
pub mod recordings;
pub mod roles;
pub mod room;
pub mod whole;
pub mod worlds;

pub use connected::is_legs_of_lines_are_connected;
pub use expecting::no_node_refuses_what_it_expects;
pub use known::roles_know_their_legs;
pub use pdus_in_recordings::rpc_pdus_of_a_recording_pass_in_turn;
pub use pdus_in_worlds::rpc_pdus_pass_in_turn;
pub use recordings::no_node_of_a_recording_refuses_what_comes;
pub use roles::{
    no_in_proxy_refuses_what_comes, no_out_proxy_refuses_its_client,
    no_out_proxy_refuses_its_server, no_server_refuses_its_in_proxies,
    no_server_refuses_its_out_proxies,
};
pub use room::{
    no_node_lacks_room, no_node_of_a_recording_lacks_room,
    no_node_that_has_room_closes_for_a_full_leg,
};
pub use whole::no_node_refuses_what_comes;
pub use worlds::{a_client_refuses_no_cookie, no_client_refuses_what_comes};
