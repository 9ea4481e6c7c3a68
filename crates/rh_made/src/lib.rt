//! What a generated recording of roles is: its PDUs, which go up and down in turn, and its lines, of
//! which some settle all. What the answers to lines come to is summed up, and told as text.
#![tactic(auto)]

pub mod count;
pub mod laws;
pub mod lines;
pub mod numerals;
pub mod requests;
pub mod summary;
pub mod tally;
pub mod writing;

pub use count::{MOST_GIVEN, MakeCount};
pub use laws::{a_pdu_is_made, a_recording_is_made};
pub use lines::{ROUNDS, giver, settles};
pub use numerals::numbers_are_fixed;
pub use requests::pdu;
pub use summary::Summary;
pub use tally::Tally;
pub use writing::write_summary;
