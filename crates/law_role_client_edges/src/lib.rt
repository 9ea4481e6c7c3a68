//! What a client knows of its hops, and how its work is done.
#![tactic(auto)]

pub mod ends;
pub mod windows;

pub use ends::a_client_ends_last;
pub use windows::{a_client_knows_what_its_in_proxies_told, a_client_told_what_its_windows_told};
