//! Where a settling answers quiet, the world behind it is at rest.
#![tactic(auto)]

pub mod recordings;
pub mod rounds;
pub mod steady;

pub use recordings::a_quiet_recording_is_at_rest;
pub use rounds::a_silent_round_leaves_the_world_at_rest;
pub use steady::nodes_of_roles_are_steady;
