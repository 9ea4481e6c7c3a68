//! When a proxy is done, and where a node goes on though a leg of it ends. Its functions do
//! nothing: their contracts are the laws.
#![tactic(auto)]

pub mod in_proxy;
pub mod losing;
pub mod out_proxy;
pub mod server;

pub use in_proxy::{
    an_in_proxy_is_done_where_it_was_told, an_in_proxy_is_over_behind_its_mark,
    an_in_proxy_puts_nothing_to_its_client, no_end_closes_an_in_proxy_that_was_told,
    no_end_of_a_ci_leg_closes_an_in_proxy_behind_a_mark,
};
pub use losing::{a_node_goes_by_rules_that_mark_the_same, a_node_goes_on_where_it_may_lose_a_leg};
pub use out_proxy::{
    an_out_proxy_is_over_behind_its_mark,
    an_out_proxy_that_kept_its_server_is_over_behind_its_mark,
    no_end_closes_an_out_proxy_behind_its_mark,
};
pub use server::{
    no_end_of_a_leg_that_is_over_closes_a_server,
    no_end_of_a_leg_that_it_handed_over_closes_a_server,
    no_end_of_a_leg_that_was_handed_over_closes_a_server,
};
