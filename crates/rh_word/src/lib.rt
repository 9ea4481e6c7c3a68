//! What a word of a program is that reads a text of lines and writes what they say, how it ends,
//! and how its output is gathered and written in pieces.
#![tactic(auto)]

pub mod numerals;
pub mod output;
pub mod word;

pub use numerals::numbers_are_fixed;
pub use output::{PIECE, Unfinished, pass_on};
pub use word::{Ended, MOST_INPUT, Word, answer};
