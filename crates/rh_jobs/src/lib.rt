//! Jobs that run beside one another, on a thread each: all are started before any begins.
#![tactic(auto)]

pub mod count_spawner;
pub mod job;
mod latch;
pub mod spawner;
mod started;
pub mod thread_spawner;
mod worker;

pub use count_spawner::CountSpawner;
pub use job::Job;
pub use spawner::{CallRefused, SpawnRefused, Spawner};
pub use thread_spawner::ThreadSpawner;
