//! An end that was told to close gives no more, and one that closed neither gives nor takes; and a
//! take that tells the end has nothing left. Its functions do nothing: their contracts are the
//! laws.

pub mod client;
pub mod server;
pub mod takes;

pub use client::a_client_that_closes_gives_no_more;
pub use server::a_server_that_closes_gives_no_more;
pub use takes::{a_take_that_ends_has_nothing_left, takes_that_end_report_the_end};
