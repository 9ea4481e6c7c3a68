//! In which turn a client puts its messages on its IN legs, and with which packets its channels
//! begin. Its functions do nothing of their own: their contracts are the laws.

pub mod asking;
pub mod pings;
pub mod turns;

pub use asking::a_client_asks_once;
pub use pings::a_client_puts_no_ping_first;
pub use turns::{a_client_writes_in_turn, no_pdu_follows_end, nothing_follows_in_r1_a5};
