//! Behind which marks legs end in calm recordings, in which nothing breaks from outside, and which
//! nodes close first there. Its functions do nothing: their contracts are the laws.
#![tactic(auto)]

pub mod marks;
pub mod recordings;

pub use marks::ci_legs_end_behind_handover_marks;
pub use recordings::a_calm_recording_closes_no_node_unless_one_still_late;
