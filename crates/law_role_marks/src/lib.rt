//! Where a role goes on though a leg of it ends: behind which marks it only marks the leg, or has
//! no use for it any more. Its functions do nothing: their contracts are the laws.
#![tactic(auto)]

pub mod client;
pub mod in_proxy;
pub mod out_proxy;
pub mod server;

pub use client::a_client_leaves_what_was_handed_over;
pub use in_proxy::{
    an_in_proxy_may_lose_what_was_handed_over, an_in_proxy_only_marks_behind_a_mark,
};
pub use out_proxy::an_out_proxy_only_marks_behind_a_mark;
pub use server::{
    a_server_only_marks_what_is_over, a_server_only_marks_what_it_handed_over,
    a_server_only_marks_what_was_handed_over,
};
