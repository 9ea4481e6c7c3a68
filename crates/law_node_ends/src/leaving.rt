//! A leg for which a role has no use any more stays so. Its functions do nothing: their contracts
//! are the laws.

pub mod client;
pub mod in_proxy;
pub mod out_proxy;
pub mod server;

pub use client::a_leg_that_a_client_left_stays_unused;
pub use in_proxy::a_leg_that_an_in_proxy_left_stays_unused;
pub use out_proxy::a_leg_that_an_out_proxy_left_stays_unused;
pub use server::a_leg_that_a_server_left_stays_unused;
