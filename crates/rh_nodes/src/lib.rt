//! The world of roles: one virtual connection, driven line by line (profile).
#![tactic(auto)]

pub mod breaking;
pub mod carrying;
pub mod giving;
pub mod half;
pub mod nodes;
pub mod numerals;
pub mod opening;
pub mod settling;
pub mod step;
pub mod time;

pub use half::Half;
pub use nodes::Nodes;
pub use numerals::numbers_are_fixed;
