//! Why nodes close. Its functions do nothing: their contracts are the laws.
#![tactic(auto)]

pub mod closings;
pub mod moments;
pub mod once;
pub mod once_each;
pub mod refusals;
pub mod watching;

pub use closings::{
    a_node_closes_once, an_end_closes_once, causes_come_from_their_events,
    events_close_with_their_causes,
};
pub use moments::{
    a_leg_is_silent_since_it_was_heard, an_ends_leg_is_silent_since_it_was_heard,
    each_roles_legs_are_silent_since_they_were_heard,
};
pub use once::{UpOnce, a_leg_comes_up_once, an_ends_leg_comes_up_once};
pub use once_each::{
    a_clients_leg_comes_up_once, a_servers_leg_comes_up_once, an_in_proxys_leg_comes_up_once,
    an_out_proxys_leg_comes_up_once,
};
pub use refusals::{
    a_node_refuses_for_a_reason, a_proxy_refuses_for_a_reason,
    only_a_client_closes_with_http_refused,
};
pub use watching::{
    a_client_watches_by_what_was_told, a_node_falls_silent_since_it_was_heard,
    a_proxy_watches_its_client,
};
