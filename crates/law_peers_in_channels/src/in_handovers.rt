//! What a server expects of IN channels that succeed each other. Its functions do nothing: their
//! contracts are the laws.

pub mod handovers;
pub mod in_proxies;

pub use handovers::a_server_expects_handovers;
pub use in_proxies::a_server_expects_its_in_proxies;
