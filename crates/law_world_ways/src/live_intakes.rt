//! What comes on the legs that a node keeps is read while the node goes on. Its functions do
//! nothing: their contracts are the laws.

pub mod heads;
pub mod nodes;
pub mod worlds;

pub use heads::no_bytes_that_come_ask_for_an_echo;
pub use nodes::what_a_node_keeps_is_read;
pub use worlds::what_comes_is_read;
