//! Moments of a virtual connection: what the moves of its four roles have in common. It has
//! definitions and lemmas alone.
#![tactic(auto)]

pub mod rounds;

pub use rounds::replacements_go_round;
