//! The giver and the taker of a running end: PDUs come from an input, and those taken go to an output.
#![tactic(auto)]

mod batch;
pub mod giving;
pub mod taking;

pub use giving::{GivingRooms, give_all};
pub use taking::take_all;
