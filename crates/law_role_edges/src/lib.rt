//! Senders know what their receivers told, and proxies pass on all that they are to.
#![tactic(auto)]

pub mod edges;
pub mod forwarding;
pub mod openings;
pub mod out_proxies;
pub mod windows;

pub use edges::{an_in_proxy_knows_what_the_server_told, an_in_proxy_passes_edges_on};
pub use forwarding::{an_out_proxy_forwards_all_that_came, an_out_proxy_passes_edges_on};
pub use openings::{
    an_in_proxy_tells_of_its_first_channel, an_in_proxy_tells_of_later_channels,
    an_out_proxy_tells_of_its_channel,
};
pub use out_proxies::{
    an_out_proxy_knows_what_its_client_told, an_out_proxy_told_what_its_window_told,
};
pub use windows::an_in_proxy_told_what_its_windows_told;
