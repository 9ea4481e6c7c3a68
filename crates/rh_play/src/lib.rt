//! One role alone: a node is told what the lines of a script say, and answers.
#![tactic(auto)]

pub mod node;
pub mod player;
mod target;

pub use node::Node;
pub use player::Player;
