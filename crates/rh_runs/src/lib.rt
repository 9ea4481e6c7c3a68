//! Runs of seats: where what a seat of a turn did stands in the one history.
#![tactic(auto)]

pub mod laws;

pub use laws::{calls_are_those, calls_stand, own_are_those};
