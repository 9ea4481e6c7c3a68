//! The hops of a client, whose acknowledgements and windows pass other nodes. Its functions do
//! nothing: their contracts are the laws.

pub mod forwarders;
pub mod receivers;
pub mod windows;

pub use forwarders::{
    a_server_passes_acknowledgements_on, an_in_proxy_passes_acknowledgements_on,
    an_out_proxy_passes_acknowledgements_on,
};
pub use receivers::{
    a_client_tells_within_its_window, an_in_proxy_acknowledges_what_came,
    an_in_proxy_receives_within_its_window, an_in_proxy_tells_within_its_window,
};
pub use windows::{
    a_server_tells_what_it_was_told, an_in_proxy_tells_its_window,
    an_out_proxy_tells_what_it_was_told,
};
