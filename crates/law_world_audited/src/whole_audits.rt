//! What an audit of a recording of roles tells.

pub mod audits;

pub use audits::an_audit_of_a_recording_finds_nothing;
