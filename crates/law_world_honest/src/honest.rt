//! Honest roles: what closes no node where all nodes are roles that keep to their rules. Its
//! functions do nothing: their contracts are the laws.

pub mod pieces;
pub mod ranges;
pub mod recordings;
pub mod worlds;

pub use pieces::{
    a_piece_that_reads_well_closes_for_the_role, what_is_heard_well_closes_for_the_role,
};
pub use ranges::rows_refuse_values_of_acknowledgements;
pub use recordings::no_node_of_a_recording_closes_for_bad_bytes;
pub use worlds::{
    heads_that_are_heard_break_no_rule, no_change_closes_a_node_for_bad_bytes,
    what_is_fed_closes_for_the_role, what_is_heard_reads_well,
};
