//! The streams of ends and proxies, joined by legs, are routes: up and down.
#![tactic(auto)]

pub mod down;
pub mod up;

pub use down::{
    callers_take_what_was_given, what_a_client_takes_was_put, what_a_proxy_takes_was_sent,
    what_came_down_was_given, what_goes_down_is_a_route,
};
pub use up::{what_came_up_was_given, what_goes_up_is_a_route};
