//! What each role holds within its window, and who passes acknowledgements on.
#![tactic(auto)]

pub mod acks;
pub mod holding;

pub use acks::{
    a_client_tells_within_its_window, a_server_passes_acknowledgements_on,
    a_server_tells_what_it_was_told, an_in_proxy_acknowledges_what_came,
    an_in_proxy_passes_acknowledgements_on, an_in_proxy_receives_within_its_window,
    an_in_proxy_tells_its_window, an_in_proxy_tells_within_its_window,
    an_out_proxy_passes_acknowledgements_on, an_out_proxy_tells_what_it_was_told,
};
pub use holding::{
    what_a_client_holds, what_a_server_holds, what_an_in_proxy_holds, what_an_out_proxy_holds,
};
