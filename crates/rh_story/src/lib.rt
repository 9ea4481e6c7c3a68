//! The story of a recording: its lines and what they are answered, told to people. Each packet and
//! PDU is named, with the moment and the leg.
#![tactic(auto)]

mod brief;
mod held;
mod items;
pub mod laws;
mod lines;
mod rounds;
pub mod story;
mod streams;
pub mod teller;

pub use laws::{cut_anywhere, each_frame_is_told};
pub use story::Story;
pub use teller::HexStory;
