//! What is put on a pipe as it may be is a stream that an audit finds unbroken.

pub mod fronts;
pub mod puts;
pub mod texts;

pub use fronts::{no_bytes_are_no_frames, no_front_is_broken, refusals_are_no_frames};
pub use puts::{what_is_put_is_a_stream, what_is_put_is_seen};
pub use texts::written_texts_are_fine;
