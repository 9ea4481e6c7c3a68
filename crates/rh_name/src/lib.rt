//! What people call packets: each is told in one line by its name and its fields.
#![tactic(auto)]

mod cookies;
mod few_names;
mod fields;
pub mod laws;
mod pdus;
mod places;
pub mod reader;
pub mod telling;
mod words;

pub use cookies::write_counts;
pub use fields::{cookie_word, counted, write_named_field};
pub use laws::one_name;
pub use pdus::{write_kind, write_pdu};
pub use reader::{Asked, Namer, Names, split_pipe};
pub use telling::{is_rts, name_packet, write_named};
pub use words::{name_word, pipe_word};
