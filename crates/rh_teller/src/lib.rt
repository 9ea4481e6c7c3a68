//! Who tells of a recording while it runs: of each line, and of each answer to it.
#![tactic(auto)]

pub mod reporter;
pub mod telling;

pub use reporter::Reporter;
pub use telling::{Teller, tell_all};
