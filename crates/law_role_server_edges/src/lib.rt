//! What a server knows and tells of windows, and which edges it passes on.
#![tactic(auto)]

pub mod passing;
pub mod windows;

pub use passing::a_server_passes_edges_on;
pub use windows::{
    a_server_knows_what_out_proxies_told, a_server_tells_each_window,
    a_server_told_what_its_window_told,
};
