//! Recordings and reports: their lines and answers, and the text of each.
#![tactic(auto)]

pub mod answer;
pub mod keys;
pub mod line;
pub mod numerals;
pub mod place;
pub mod reading;
pub mod recording;
pub mod report;
mod verb;
pub mod words;
pub mod writing;

pub use answer::{Answer, TakeAnswer, Who};
pub use line::{Key, Line, RecordKind};
pub use numerals::numbers_are_fixed;
pub use place::{Keys, Place};
pub use reading::{LineRefused, read_line};
pub use recording::{Recording, one_reading, one_recording};
pub use report::Report;
pub use rh_line::{Dir, GiveFault, Side};
pub use rh_text::Bytes;
pub use writing::{write_answer, write_report};
