//! The server of a virtual connection (MS-RPCH 3.2.5).
#![tactic(auto)]

mod acknowledging;
mod ending;
pub mod first_frame;
mod in_replacement;
pub mod numerals;
mod opening;
pub mod out_line;
mod out_replacement;
mod putting;
pub mod server;
pub mod state;
mod time;

pub use first_frame::{FirstKind, first_kind};
pub use numerals::numbers_are_fixed;
pub use server::{ROOMS, Server, ServerConfig};
pub use state::ServerRole;
