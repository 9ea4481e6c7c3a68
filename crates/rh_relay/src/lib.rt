//! Relays: roles that run over legs. The jobs of a node act on its one machine, each on a thread of
//! its own.
#![tactic(auto)]

pub mod answer;
pub mod gathering;
pub mod making;
pub mod outside;
pub mod run;
pub mod work;

pub use outside::Outside;
pub use run::{Ran, run_node};
