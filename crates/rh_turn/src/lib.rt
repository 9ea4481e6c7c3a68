//! A lock with histories: many seats share one machine, which takes one event at a time. All its
//! events stand in one history, and each seat knows a beginning of it and its own places there.
#![tactic(auto)]

mod board;
pub mod laws;
mod machine;
mod plays;
mod rule;
mod seat;
mod turn;
mod view;

pub use laws::one_history;
pub use machine::Machine;
pub use seat::Seat;
pub use turn::Turn;
