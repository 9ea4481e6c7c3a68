//! What a client and a server put first on each leg, over every list of their moves. Its functions
//! do nothing: their contracts are the laws.

pub mod client;
pub mod ends;
pub mod server;

pub use client::{
    a_client_asks_by_its_requests, a_client_begins_with_a_request,
    what_a_client_puts_first_reads_well,
};
pub use ends::an_end_never_refuses;
pub use server::{a_server_begins_with_a_greeting, what_a_server_puts_first_reads_well};
