//! No RPC PDU of an IN channel passes ahead of the handover of the one before it. Its functions do
//! nothing but call laws that they stand on: their contracts are the laws.

pub mod in_proxies;
pub mod moments;
pub mod servers;

pub use in_proxies::an_in_proxy_holds_back_pdus_of_a_successor;
pub use moments::pdus_of_a_successor_come_behind_its_handover;
pub use servers::a_server_tells_a_window_behind_handovers;
