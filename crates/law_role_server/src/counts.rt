//! How often a server's packets pass. Its functions do nothing: their contracts are the laws.

pub mod connections;
pub mod in_channels;
pub mod out_channels;

pub use connections::{a_server_opens_once, a_server_puts_conn_c1_first};
pub use in_channels::a_server_answers_each_in_channel_once;
pub use out_channels::a_server_replaces_out_channels_one_by_one;
