//! Why a server refuses what comes on IN channels, how many it opens, and how many os legs it
//! keeps. Its functions do nothing: their contracts are the laws.
#![tactic(auto)]

pub mod handing;
pub mod refusals;

pub use handing::{a_server_keeps_few_out_legs, handovers_make_room_for_answers};
pub use refusals::what_a_server_refuses_of_in_channels;
