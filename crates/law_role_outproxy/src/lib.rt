//! Laws of an out proxy alone, whatever its peers put.
#![tactic(auto)]

pub mod counts;
pub mod legible;
pub mod order;
pub mod puts;
pub mod refusals;
pub mod sends;

pub use counts::{
    an_out_proxy_forwards_what_came, an_out_proxy_is_opened_once,
    an_out_proxy_opens_as_it_was_asked, an_out_proxy_opens_what_came,
};
pub use legible::what_an_out_proxy_puts_reads_back;
pub use order::an_out_proxy_keeps_order;
pub use puts::{an_out_proxy_opens_to_its_client_in_order, an_out_proxy_opens_to_the_server_first};
pub use refusals::what_an_out_proxy_refuses;
pub use sends::an_out_proxy_sends_within_the_clients_window;
