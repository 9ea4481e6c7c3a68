//! What a client puts in which turn, and why its rows refuse.
#![tactic(auto)]

pub mod puts;
pub mod refusals;
pub mod turns;

pub use puts::{
    a_client_opens_in_channels_in_order, a_client_opens_out_channels_in_order,
    a_client_switches_in_order,
};
pub use refusals::what_a_client_refuses;
pub use turns::{
    a_client_asks_once, a_client_puts_no_ping_first, a_client_writes_in_turn, no_pdu_follows_end,
    nothing_follows_in_r1_a5,
};
