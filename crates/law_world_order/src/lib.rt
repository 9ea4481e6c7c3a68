//! Whatever becomes of the legs, at each moment of a recording of roles what an end took is a
//! front of what the other end gave: each PDU once and in order. Its functions do nothing: their
//! contracts are the laws.
#![tactic(auto)]

pub mod at_moments;
pub mod cookies;
pub mod directions;
pub mod final_ends;
pub mod final_turns;
pub mod recordings;
pub mod turns;
pub mod worlds;

pub use at_moments::{a_world_of_roles_is_at_a_moment, replacements_of_a_world_go_round};
pub use cookies::{cookies_are_drawn_for_channels, cookies_of_a_recording_are_left};
pub use directions::{directions_are_joined, marks_are_last, what_is_put_is_legible};
pub use final_ends::every_recording_ends_for_good;
pub use final_turns::turns_are_final;
pub use recordings::every_recording_is_ordered;
pub use turns::{a_half_step_is_whole, turns_keep_order};
pub use worlds::roles_keep_order;
