//! In the capture of a recording of roles what clients saw is a front of what the server sent.

pub mod down;

pub use down::what_went_down_is_a_front;
