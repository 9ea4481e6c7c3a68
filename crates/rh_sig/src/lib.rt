//! The named RTS packets (MS-RPCH 2.2.4), and the text of a cookie.
#![tactic(auto)]

mod cookie;
mod fault;
mod few_commands;
mod fields;
mod kinds;
pub mod laws;
pub mod lengths;
mod name;
mod named;
mod naming;
pub mod numerals;
pub mod ranges;
mod reading;
mod rows;
mod signature;
mod values;
mod writing;

pub use cookie::{COOKIE_TEXT_LEN, cookie_text};
pub use fault::SigFault;
pub use fields::number_of;
pub use laws::{one_name, packets_are_named};
pub use name::{Name, Pipe};
pub use named::Named;
pub use numerals::numbers_are_fixed;
pub use reading::{name_of, read_named};
pub use signature::Sig;
pub use writing::write_named;
