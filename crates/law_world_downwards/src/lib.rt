//! Where the nodes of a world go on though a leg ends that the end nearer the server has finished.
//! Its functions do nothing: their contracts are the laws.
#![tactic(auto)]

pub mod client;
pub mod drawing;
pub mod in_proxy;
pub mod marking;
pub mod out_proxy;

pub use client::a_client_goes_on_where_its_out_proxy_is_over;
pub use drawing::what_a_client_drew_at_once_is_drawn;
pub use in_proxy::an_in_proxy_goes_on_where_its_server_left;
pub use marking::{a_node_marks_only_what_was_lost, an_end_marks_only_what_was_lost};
pub use out_proxy::{
    an_out_proxy_goes_on_where_its_server_left,
    an_out_proxy_is_over_behind_its_mark_while_the_server_works,
};
