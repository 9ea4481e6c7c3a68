//! What is seen on the legs of one direction of a virtual connection.

pub mod seen;

pub use seen::what_is_seen_far_was_seen_near;
