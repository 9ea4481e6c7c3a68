//! Laws of a client alone, whatever its peers put.
#![tactic(auto)]

pub mod counts;
pub mod laws;
pub mod legible;
pub mod order;
pub mod receives;
pub mod sends;

pub use counts::{
    a_client_asks_where_a_successor_is_wanted, a_client_names_its_in_channels,
    a_client_names_its_out_channels, a_client_opens_once, a_client_replaces_in_channels_one_by_one,
    a_client_replaces_out_channels_one_by_one,
};
pub use laws::the_last_channel_has_no_successor;
pub use legible::what_a_client_puts_reads_back;
pub use order::{a_client_gives_in_order, a_client_takes_in_order};
pub use receives::{
    a_client_acknowledges_what_came, a_client_receives_within_its_window,
    a_client_tells_what_its_windows_told,
};
pub use sends::{a_client_begins_each_channel_once, a_client_sends_as_it_was_told};
