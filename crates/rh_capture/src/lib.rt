//! Captures: what a run moved on its legs as one, and the text of one.
#![tactic(auto)]

pub mod capturing;
mod kinds;
mod numbers;
pub mod pipes;
pub mod reading;
pub mod recording;
pub mod refused;
pub mod tags;
pub mod telling;
pub mod writing;

pub use capturing::{Captured, Moved, capture};
pub use pipes::{pipe_of, word_of};
pub use reading::read_capture;
pub use recording::RolesRecording;
pub use refused::CaptureRefused;
pub use tags::Tags;
pub use writing::{write_first, write_moved};
