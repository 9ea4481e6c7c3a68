//! What each role puts first on a leg; where a proxy refuses.
#![tactic(auto)]

pub mod ends_begin;
pub mod proxies_begin;

pub use ends_begin::{
    a_client_asks_by_its_requests, a_client_begins_with_a_request, a_server_begins_with_a_greeting,
    an_end_never_refuses, what_a_client_puts_first_reads_well, what_a_server_puts_first_reads_well,
};
pub use proxies_begin::{
    an_in_proxy_answers_echoes_alone, an_in_proxy_begins, an_in_proxy_refuses_first,
    an_out_proxy_begins, an_out_proxy_refuses_first, proxies_keep_their_pipes,
    what_an_in_proxy_puts_first_reads_well, what_an_out_proxy_puts_first_reads_well,
};
