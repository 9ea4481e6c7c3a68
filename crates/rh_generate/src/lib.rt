//! Runs a recording of roles that is generated, and sums up its report.
#![tactic(auto)]

pub mod laws;
mod making;

pub use laws::a_summary_is_of_the_report;
pub use making::make;
