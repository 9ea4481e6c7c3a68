//! Where a settling answers quiet and no lifetime stands in the way, nothing is left on hops whose
//! senders know what was told.
#![tactic(auto)]

pub mod recordings;

pub use recordings::nothing_is_left_on_known_hops;
