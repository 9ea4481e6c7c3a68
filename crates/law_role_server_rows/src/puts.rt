//! What a server puts on its legs, in which order, and what it copies. Its functions do nothing:
//! their contracts are the laws.

pub mod puts;

pub use puts::{a_server_copies_what_came, a_server_greets_first, a_server_writes_in_turn};
