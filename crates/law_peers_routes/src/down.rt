//! What a server gives comes to the client through the out proxies in order, each PDU once. Its
//! functions do nothing: their contracts are the laws.

pub mod down;
pub mod legs;

pub use down::{callers_take_what_was_given, what_came_down_was_given, what_goes_down_is_a_route};
pub use legs::{what_a_client_takes_was_put, what_a_proxy_takes_was_sent};
