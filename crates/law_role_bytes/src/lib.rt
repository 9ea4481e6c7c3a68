//! The windows of roles count exactly the bytes of the RPC PDUs on their legs.
#![tactic(auto)]

pub mod proxies;
pub mod servers;

pub use proxies::{
    an_in_proxy_counts_what_it_receives, an_in_proxy_counts_what_it_sends,
    an_in_proxy_knows_of_a_window_that_was_told, an_out_proxy_counts_what_it_receives,
    an_out_proxy_counts_what_it_sends,
};
pub use servers::{a_server_counts_what_it_receives, a_server_counts_what_it_sends};
