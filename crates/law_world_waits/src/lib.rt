//! Where a settling answers quiet, what was given and not taken waits at nodes.
#![tactic(auto)]

pub mod held_up;
pub mod puts;
pub mod recordings;

pub use held_up::what_is_not_put_is_held_up;
pub use puts::nothing_is_put_at_rest;
pub use recordings::what_is_not_taken_waits_at_nodes;
