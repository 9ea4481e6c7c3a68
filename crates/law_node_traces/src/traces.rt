//! Facts about recordings of real roles: what the history of each node and the facts of its role
//! are together. Its functions do nothing: their contracts are the laws.

pub mod changes;
pub mod numbers;
pub mod once;
pub mod recordings;
pub mod refusals;
pub mod turns;

pub use changes::turns_are_changes;
pub use numbers::{channels_come_up_in_order, proxies_are_numbered};
pub use once::legs_of_roles_come_up_once;
pub use recordings::a_recording_of_roles_is_known;
pub use refusals::{
    a_proxy_draws_503_where_its_server_is_lost, what_a_node_draws_goes_on_or_refuses,
};
pub use turns::{nodes_hear_in_turn, what_is_heard_was_drawn_before};
