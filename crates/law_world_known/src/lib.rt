//! In a recording at rest, what is known on the hops that lie on one leg.
#![tactic(auto)]

pub mod left;
pub mod recordings;

pub use left::nothing_is_left_where_clients_hops_are_known;
pub use recordings::hops_to_the_server_are_known_at_rest;
