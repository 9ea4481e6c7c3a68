//! The common header of connection-oriented PDUs (C706 12.6.3.1), and the frames of a stream in
//! whatever pieces it comes.
#![tactic(auto)]

pub mod fault;
pub mod feed;
mod filling;
pub mod framer;
pub mod header;
pub mod laws;
pub mod numerals;
pub mod pdu;
mod reading;
pub mod texts;

pub use fault::{HeadFault, PduFault};
pub use feed::Feed;
pub use framer::Framer;
pub use header::Header;
pub use laws::{any_pieces, one_answer, one_framing};
pub use numerals::numbers_are_fixed;
pub use pdu::check;
pub use texts::{write_head_fault, write_pdu_fault};
