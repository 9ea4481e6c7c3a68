//! The marks that an end put on the legs that it has no more use for. Its functions do nothing:
//! their contracts are the laws.

pub mod client;
pub mod server;

pub use client::a_client_puts_a_mark;
pub use server::a_server_puts_a_mark;
