//! No node closes with `WindowExceeded` or `OutOfRange`: a row refuses so only on legs of a hop,
//! and each hop keeps within its windows. Its functions do nothing: their contracts are the laws.

pub mod recordings;
pub mod rows;
pub mod worlds;

pub use recordings::no_window_closes_a_node_of_a_recording;
pub use rows::{a_window_is_exceeded_for_a_row, rows_refuse_on_their_legs};
pub use worlds::no_window_closes_a_node;
