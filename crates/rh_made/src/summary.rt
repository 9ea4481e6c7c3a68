//! What a generated recording comes to.

use rh_record::Report;

/// The summary of a recording's report.
#[derive(Debug, Drop)]
pub struct Summary {
    /// The last lines of the report.
    pub last: Report,
    /// How many bytes all moves together moved, up to 18,446,744,073,709,551,615.
    pub moved: u64,
    /// How many rounds all settlings together had, up to 18,446,744,073,709,551,615.
    pub rounds: u64,
}
