//! What a server puts in which turn, and why its rows refuse.
#![tactic(auto)]

pub mod puts;
pub mod refusals;
pub mod turns;

pub use puts::{a_server_copies_what_came, a_server_greets_first, a_server_writes_in_turn};
pub use refusals::what_a_server_refuses;
pub use turns::{
    a_server_answers_in_proxies_in_order, a_server_has_numbers_for_out_channels,
    a_server_passes_acks_on_their_leg, a_server_writes_on_channels_that_began,
};
