//! What a node is answered to the lines of a script, and its text.
#![tactic(auto)]

mod names;
pub mod target;
pub mod told;

pub use target::Target;
pub use told::{Told, write_told};
