//! How long a node's work lasts, where it loses only legs behind their marks. Its functions do
//! nothing: their contracts are the laws.
#![tactic(auto)]

pub mod in_proxy;
pub mod out_proxy;
pub mod server;

pub use in_proxy::{
    an_in_proxy_is_done_with_what_was_handed_over, an_in_proxy_is_over_once_told_or_left,
    an_in_proxy_that_lost_what_was_handed_over_is_over_once_told,
};
pub use out_proxy::{
    an_out_proxy_handed_over_where_it_put_its_mark, an_out_proxy_hands_over_for_good,
};
pub use server::{
    a_server_may_lose_what_was_handed_over, a_server_that_lost_what_was_handed_over_works_on,
};
