//! What keeps an end from putting what it was given, where no lifetime stands in the way.
#![tactic(auto)]

pub mod at_one;
pub mod due;
pub mod free;
pub mod hop;

pub use at_one::nothing_is_held_at_one_channel;
pub use due::{free_ends_wait_for_windows, what_is_not_put_is_not_due};
pub use free::{a_new_world_is_free, margins_are_free};
pub use hop::a_drained_hop_leaves_nothing;
