//! How long a node has use for a leg, and how long its work is done. Its functions do nothing:
//! their contracts are the laws.
#![tactic(auto)]

pub mod server;

pub use server::{a_server_that_is_done_stays_done, a_server_uses_an_os_leg_that_it_kept};
