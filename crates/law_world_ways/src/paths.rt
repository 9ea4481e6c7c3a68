//! What is on its way in a world of roles: the PDUs that stand on the legs, and those that are held
//! at the nodes. Its functions do nothing: their contracts are the laws.

mod drawn;
mod paths;
mod recordings;
mod standing;

pub use drawn::what_was_forgotten_was_drawn;
pub use paths::{legs_in_use_lose_nothing, nothing_on_its_way_is_lost};
pub use recordings::every_recording_keeps_what_is_on_its_way;
pub use standing::what_stands_on_a_leg_is_read_in_its_bytes;
