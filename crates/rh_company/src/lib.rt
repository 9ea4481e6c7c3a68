//! The nodes of a virtual connection: its two ends, and the proxies by their numbers; what they are
//! told, which of them closed, and the cookies of the client's legs (profile).
#![tactic(auto)]

pub mod cast;
pub mod closing;
pub mod company;
pub mod cookies;
pub mod event;
pub mod place;
pub mod places;
pub mod telling;

pub use cast::Cast;
pub use closing::Closings;
pub use company::Company;
pub use cookies::{Cookies, cookie_of};
pub use event::Event;
pub use places::Places;
