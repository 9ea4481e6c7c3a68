//! Which nodes close in calm recordings, in which nothing breaks from outside. Its functions do
//! nothing: their contracts are the laws.
#![tactic(auto)]

pub mod moments;
pub mod recordings;
pub mod settling;

pub use moments::no_node_falls_silent_before_the_least_timeout;
pub use recordings::a_node_of_a_calm_recording_closes_for_an_end;
pub use settling::no_leg_breaks_for_a_node_by_settling;
