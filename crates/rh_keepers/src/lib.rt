//! The keepers of running nodes: they have legs connected or accept them, tell the moment, and hand
//! legs to the slots.
#![tactic(auto)]

pub mod client;
pub mod desk;
pub mod keeper;
pub mod plan;
pub mod proxy;
pub mod queue;
pub mod server;
pub mod telling;

pub use desk::{Books, Desk, alone};
pub use keeper::Keeper;
pub use plan::Plan;
pub use queue::Queue;
