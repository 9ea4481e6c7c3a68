//! The out proxy of RPC over HTTP v2 (MS-RPCH 3.2): what it makes of bytes, and what it puts.
#![tactic(auto)]

mod acknowledging;
mod ending;
mod in_replacement;
pub mod numerals;
mod opening;
pub mod out_proxy;
mod out_replacement;
mod putting;
mod role;
mod rows;
pub mod state;
mod time;

pub use numerals::numbers_are_fixed;
pub use out_proxy::{OutProxy, ROOMS};
pub use state::{OutProxyConfig, OutProxyRole};
