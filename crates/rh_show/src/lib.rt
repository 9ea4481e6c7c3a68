//! Packets as text: lines of hex are read, and each packet is told in one line.
#![tactic(auto)]

mod commands;
pub mod laws;
pub mod numerals;
pub mod reader;
pub mod showing;

pub use commands::cookie_str;
pub use laws::one_text;
pub use numerals::numbers_are_fixed;
pub use reader::{LineReader, Packets};
pub use showing::{read_header, show_packet};
