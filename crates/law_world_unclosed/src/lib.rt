//! Which nodes close first in calm recordings, in which nothing breaks from outside. Its function
//! does nothing: its contract is the law.
#![tactic(auto)]

pub mod recordings;

pub use recordings::a_calm_recording_closes_no_node_unless_one_late;
