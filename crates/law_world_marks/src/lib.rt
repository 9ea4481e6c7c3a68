//! Where the nodes of a world go on though a leg ends. Its functions do nothing: their contracts
//! are the laws.
#![tactic(auto)]

pub mod done;
pub mod unclosed;
pub mod upwards;

pub use done::the_clean_end_went_round_where_a_client_is_done;
pub use unclosed::nodes_that_nothing_closed_go_on;
pub use upwards::nodes_go_on_where_legs_are_over_upwards;
