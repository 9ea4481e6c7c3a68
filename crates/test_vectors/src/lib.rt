//! Worked rows for the tests of every crate.
#![tactic(auto)]

pub mod packets;
