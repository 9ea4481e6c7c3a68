//! RTS packets: their commands, the packet, its bytes (MS-RPCH 2.2.3).
#![tactic(auto)]

mod command;
mod decoding;
mod encoding;
mod fault;
mod header;
mod judging;
pub mod kinds;
pub mod laws;
mod layout;
pub mod numerals;
pub mod packet;
mod reading;
mod views;

pub use command::{
    ADDRESS_PADDING_LEN, Address4or16, COOKIE_LEN, Command, CommandRef, Cookie,
    GREATEST_DESTINATION, NO_COOKIE, TO_CLIENT, TO_IN_PROXY, TO_OUT_PROXY, TO_SERVER, V4_LEN,
};
pub use decoding::decode;
pub use encoding::{encode, encode_parts};
pub use fault::{DecodeFault, NoRoom, PacketFault, RtsFault, RtsKind};
pub use judging::view;
pub use laws::{one_packet, packets_are_read};
pub use numerals::numbers_are_fixed;
pub use packet::Packet;
pub use rh_text::Bytes;
pub use views::{Commands, View};
