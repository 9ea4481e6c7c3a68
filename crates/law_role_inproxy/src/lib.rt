//! Laws of an in proxy alone, whatever its peers put.
#![tactic(auto)]

pub mod counts;
pub mod legible;
pub mod order;
pub mod puts;
pub mod refusals;

pub use counts::{
    an_in_proxy_is_let_go_for_what_it_put, an_in_proxy_opens_and_hands_over_once,
    an_in_proxy_puts_for_what_came,
};
pub use legible::what_an_in_proxy_puts_reads_back;
pub use order::an_in_proxy_keeps_order;
pub use puts::{
    an_in_proxy_ends_last, an_in_proxy_puts_in_order, an_in_proxy_sends_where_it_was_told,
};
pub use refusals::what_an_in_proxy_refuses;
