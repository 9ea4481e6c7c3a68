//! In the capture of a recording of roles each leg stands in its chain.

pub mod chains;

pub use chains::the_chains_of_a_recording_have_all_legs;
