//! The in proxy of a virtual connection (MS-RPCH 3.2).
#![tactic(auto)]

mod acknowledging;
mod ending;
pub mod in_proxy;
mod in_replacement;
pub mod numerals;
pub mod opening;
mod out_replacement;
mod passing;
mod putting;
mod role;
mod row;
pub mod state;
mod time;

pub use in_proxy::{InProxy, ROOMS};
pub use numerals::numbers_are_fixed;
pub use state::{InProxyConfig, InProxyRole};
