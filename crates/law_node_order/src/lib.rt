//! What a node puts or hands out is of what it was fed or given, in that order.
#![tactic(auto)]

pub mod ends;
pub mod proxies;

pub use ends::{a_clients_streams_keep_order, a_servers_streams_keep_order};
pub use proxies::{an_in_proxys_streams_keep_order, an_out_proxys_streams_keep_order};
