//! What passed a node by its events, and how that grows.
#![tactic(auto)]

pub mod events;
pub mod growing;

pub use events::{a_nodes_stream, an_ends_stream, what_refuses_first_refuses_in_turn};
pub use growing::{a_nodes_stream_grows, an_ends_stream_grows};
