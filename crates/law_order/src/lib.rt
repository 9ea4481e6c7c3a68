//! Order in one direction of a virtual connection, from laws of each machine alone.
#![tactic(auto)]

pub mod route;

pub use route::{
    a_route_can_end, all_is_taken_at_a_clean_end, nothing_is_lost,
    nothing_is_taken_behind_a_clean_end, nothing_stands_behind_a_mark, taken_is_a_front_of_given,
    what_can_be_taken_was_given,
};
