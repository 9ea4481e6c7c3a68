//! Who acts on the machine of a running node: each of the node's jobs, by a seat of its own.
#![tactic(auto)]

pub mod actor;

pub use actor::Actor;
