//! What a node keeps of the legs of which it was not told that they are lost, and how its work
//! stays done. Its functions do nothing: their contracts are the laws.
#![tactic(auto)]

pub mod client;
pub mod finished;
pub mod in_proxy;
pub mod server;

pub use client::a_client_whose_work_is_done_is_done_for_good;
pub use finished::what_a_node_has_finished_is_drawn;
pub use in_proxy::an_in_proxy_may_lose_what_it_has_no_use_for;
pub use server::no_end_of_a_leg_that_it_is_done_with_closes_a_server;
