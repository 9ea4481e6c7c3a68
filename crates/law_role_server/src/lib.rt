//! Laws of a server alone, whatever its peers put.
#![tactic(auto)]

pub mod counts;
pub mod legible;
pub mod order;

pub use counts::{
    a_server_answers_each_in_channel_once, a_server_opens_once, a_server_puts_conn_c1_first,
    a_server_replaces_out_channels_one_by_one,
};
pub use legible::what_a_server_puts_reads_back;
pub use order::{a_server_gives_in_order, a_server_takes_in_order};
