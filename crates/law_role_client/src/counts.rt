//! How many packets of replacements came to a client, and how many it put. These functions do
//! nothing: their contracts are the laws.

pub mod naming;
pub mod opening;
pub mod replacing;

pub use naming::{a_client_names_its_in_channels, a_client_names_its_out_channels};
pub use opening::a_client_opens_once;
pub use replacing::{
    a_client_asks_where_a_successor_is_wanted, a_client_replaces_in_channels_one_by_one,
    a_client_replaces_out_channels_one_by_one,
};
