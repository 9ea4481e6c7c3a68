//! Which legs stand in the chain of a capture, where each replaces the one before it.

pub mod chained;

pub use chained::{successors_stand_in_a_chain, where_no_tag_is_left_none_is_told};
