//! What the capture of a recording of roles carries on each leg.

pub mod lists;
pub mod moves;
pub mod sent;
pub mod streams;
pub mod unbroken;

pub use lists::a_capture_has_what_moved;
pub use moves::a_recording_tells_what_moved;
pub use sent::what_moved_is_of_what_was_put;
pub use streams::what_moved_is_a_stream;
pub use unbroken::no_stream_of_a_recording_is_broken;
