//! A client, an in proxy and an out proxy expect what comes next.
#![tactic(auto)]

pub mod client_expects;
pub mod in_proxy_expects;
pub mod out_proxy_expects;
pub mod requests;

pub use client_expects::{a_client_expects_what_comes, successors_are_wanted_in_turn};
pub use in_proxy_expects::{
    an_in_proxy_announces_what_came, an_in_proxy_expects_what_comes, an_in_proxys_legs_came_up,
    no_client_is_opened_early,
};
pub use out_proxy_expects::{
    an_in_proxy_puts_quietly, an_out_proxy_expects_its_server, no_server_is_early,
};
pub use requests::{an_out_proxy_answers_echoes_alone, what_an_out_proxy_serves_reads_well};
