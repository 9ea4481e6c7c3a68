//! In the capture of a recording of roles far legs carried a front of what near ones did.

pub mod up;

pub use up::what_went_up_is_a_front;
