//! The bytes of RPC PDUs that are held for a channel never pass the receive window that was
//! advertised for it (MS-RPCH 3.2), whatever comes from any peer. Its functions do nothing: their
//! contracts are the laws.

pub mod client;
pub mod in_proxy;
pub mod out_proxy;
pub mod server;

pub use client::what_a_client_holds;
pub use in_proxy::what_an_in_proxy_holds;
pub use out_proxy::what_an_out_proxy_holds;
pub use server::what_a_server_holds;
