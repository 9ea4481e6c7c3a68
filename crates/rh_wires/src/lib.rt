//! The legs between the nodes of a virtual connection, with the bytes in flight on them; lists and
//! rings that grow (profile).
#![tactic(auto)]

pub mod counts;
mod flight;
pub mod legs;
pub mod numbered;
pub mod readers;
pub mod ring;
pub mod wire;
pub mod wires;

pub use counts::Counts;
pub use legs::Legs;
pub use numbered::{Item, grow, skip_idle};
pub use readers::Readers;
pub use wire::{receiver, sender};
