//! Bodies keep to their heads: what closes no honest node as a body that is too long. Its functions
//! do nothing: their contracts are the laws.
#![tactic(auto)]

pub mod clients;
pub mod heads;
pub mod nodes;
pub mod recordings;
pub mod worlds;

pub use clients::what_a_client_puts_keeps_its_lengths;
pub use heads::heads_are_taken_by_their_lengths;
pub use nodes::{what_a_node_counts_came_behind_a_head, what_an_end_counts_came_behind_a_head};
pub use recordings::no_body_of_a_recording_is_too_long;
pub use worlds::no_change_closes_a_node_for_a_long_body;
