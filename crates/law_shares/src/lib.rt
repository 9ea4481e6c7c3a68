//! Shares of a history: what many seats of a turn did, once they were joined, makes up all of it.
#![tactic(auto)]

pub mod laws;

pub use laws::{history_is_dealt, ones_are_those};
