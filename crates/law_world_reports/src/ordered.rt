//! What each end takes, as the report of a recording tells it, is what the other end gave, each PDU
//! once and in order. Its functions do nothing: their contracts are the laws.

pub mod counts;
pub mod ends;
pub mod final_ends;
pub mod lines;
pub mod recordings;
pub mod reports;

pub use counts::{a_recording_counts, a_report_counts};
pub use ends::{
    a_client_gives_until_it_is_told_to_close, a_server_gives_until_it_is_told_to_close,
};
pub use final_ends::{
    a_client_that_closes_was_told, a_recording_ends_for_good, a_report_ends_for_good,
    a_server_that_closes_was_told,
};
pub use lines::{a_recording_ends_with_its_last_lines, a_recording_names_the_sides_of_its_gives};
pub use recordings::a_recording_is_ordered;
pub use reports::a_report_is_ordered;
