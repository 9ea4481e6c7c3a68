//! What is on its way in a world of roles whose legs end only where they are over, exactly. Its
//! functions do nothing: their contracts are the laws.

pub mod recordings;
pub mod worlds;

pub use recordings::recordings_lose_nothing;
pub use worlds::{what_is_lost_in_time_had_passed, what_was_given_is_taken_or_on_its_way};
