//! One leg of a running node: what comes is fed to the node's machine, and what that puts is written.
#![tactic(auto)]

pub mod bell;
mod called;
pub mod end;
pub mod gate;
pub mod numerals;
pub mod reader;
pub mod writer;

pub use bell::{Bell, Call};
pub use end::{LegEnd, NodeEnd};
pub use gate::{Gate, NoGate, Place};
pub use numerals::numbers_are_fixed;
pub use reader::{LAST_PIECES, read_leg};
pub use writer::{Pen, write_leg};
