//! The slots of a running node: each has a job that reads and one that writes the legs that the
//! node's keeper hands over, one leg after the other.
#![tactic(auto)]

pub mod first;
pub mod hand_over;
pub mod serving;
pub mod slot;

pub use first::{FIRST_ROOM, First};
pub use hand_over::HandOver;
pub use serving::Serving;
pub use slot::{Served, Slot, ToRead, ToWrite, read_slot, slots_of, write_slot};
