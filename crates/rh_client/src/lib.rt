//! The client of a virtual connection of RPC over HTTP v2 (MS-RPCH 3.2.2).
#![tactic(auto)]

mod acknowledging;
pub mod channels;
pub mod client;
mod ending;
mod in_replacement;
pub mod lengths;
pub mod numerals;
mod opening;
mod out_replacement;
mod putting;
pub mod replacement;
mod requests;
pub mod state;
mod successors;
mod time;

pub use client::{Client, ROOMS};
pub use numerals::numbers_are_fixed;
pub use rh_http::ClientConfig;
pub use state::ClientRole;
