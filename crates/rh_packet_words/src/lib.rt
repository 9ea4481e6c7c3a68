//! The words that tell of packets, one line each.
#![tactic(auto)]

pub mod audit;
pub mod name;
pub mod show;

pub use audit::{answer_audit, write_audit};
pub use name::Name;
pub use show::Show;
