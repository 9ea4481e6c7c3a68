//! Receive windows: how many bytes of RPC PDUs a sender may send, and a receiver may hold
//! (MS-RPCH 3.2).
#![tactic(auto)]

pub mod fault;
pub mod laws;
pub mod numerals;
pub mod range;
pub mod recv_window;
pub mod send_window;

pub use fault::{BadAck, WindowExceeded};
pub use laws::{hop_goes_on, hop_is_announced, hop_is_honest, hop_is_kept};
pub use numerals::numbers_are_fixed;
pub use range::{DEFAULT_WINDOW, GREATEST_WINDOW, LEAST_WINDOW};
pub use recv_window::{Ack, RecvWindow};
pub use send_window::SendWindow;
