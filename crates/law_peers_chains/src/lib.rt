//! Legs of a virtual connection replace one another in the order of their numbers.
#![tactic(auto)]

pub mod succession;
pub mod whole;

pub use succession::each_leg_replaces_the_one_before_it;
pub use whole::what_is_read_is_whole;
