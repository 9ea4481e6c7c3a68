//! Texts: lines, bytes as hex, numbers, the words for ends and directions, and appending to a text.
#![tactic(auto)]

pub mod bytes;
pub mod digits;
pub mod ends;
pub mod grammar;
pub mod lines;
pub mod numbers;
pub mod writing;

pub use bytes::Bytes;
pub use digits::{is_hex, read_hex, write_hex};
pub use ends::{Dir, Side};
pub use grammar::{Grammar, first_bad_line, one_text};
pub use lines::{LINE_FEED, split_line};
pub use numbers::read_number;
pub use writing::{Part, push_ascii, write_five, write_parts, write_three};
