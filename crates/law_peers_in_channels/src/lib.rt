//! A server expects its in proxies: IN channels announced, answered, handed over in order.
#![tactic(auto)]

pub mod in_channels;
pub mod in_handovers;
pub mod in_successors;
pub mod pdus_in_turn;
pub mod server_expects;

pub use in_channels::{in_channels_are_announced_in_order, in_channels_are_answered_in_order};
pub use in_handovers::{a_server_expects_handovers, a_server_expects_its_in_proxies};
pub use in_successors::a_server_expects_successors;
pub use pdus_in_turn::{
    a_server_tells_a_window_behind_handovers, an_in_proxy_holds_back_pdus_of_a_successor,
    pdus_of_a_successor_come_behind_its_handover,
};
pub use server_expects::{
    a_server_expects_all_but_successors, a_server_expects_its_out_proxies,
    an_in_proxy_connects_as_it_was_asked, an_in_proxy_in_turn_puts_in_order,
    no_ping_goes_first_to_a_server,
};
