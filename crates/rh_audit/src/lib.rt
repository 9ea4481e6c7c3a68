//! Looks at captured legs: whether the PDUs that were seen on the far legs are a front of those
//! that were seen on the near legs.
#![tactic(auto)]

pub mod auditing;
mod chain;
mod cursor;
pub mod fault;
mod frames;
mod kept;
mod leg;
mod legs;
mod link;
pub mod numerals;
mod opening;
mod packet;
mod pieces;
mod place;
pub mod prefixed;
mod read_leg;
pub mod reading;
pub mod seen;
mod sorting;
mod stream;
mod summary;
pub mod verdict;
mod walk;

pub use fault::{AuditFault, SeenRefused};
pub use prefixed::Prefixed;
pub use reading::read_seen;
pub use seen::Seen;
pub use verdict::Audit;
