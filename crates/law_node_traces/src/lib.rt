//! What the histories of real roles have in common; whose legs come up where; proxies that are let
//! go.
#![tactic(auto)]

pub mod let_go;
pub mod own_legs;
pub mod traces;

pub use let_go::a_proxy_that_was_let_go_has_no_leg_up;
pub use own_legs::{
    a_client_refuses_on_out_legs_alone, a_server_refuses_on_its_own_legs_alone,
    an_out_proxy_refuses_on_its_own_legs_alone, each_node_keeps_its_own_legs,
    each_node_refuses_on_its_own_legs,
};
pub use traces::{
    a_proxy_draws_503_where_its_server_is_lost, a_recording_of_roles_is_known,
    channels_come_up_in_order, legs_of_roles_come_up_once, nodes_hear_in_turn,
    proxies_are_numbered, turns_are_changes, what_a_node_draws_goes_on_or_refuses,
    what_is_heard_was_drawn_before,
};
