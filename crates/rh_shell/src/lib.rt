//! What is the same in every role of a virtual connection (MS-RPCH 3.2).
#![tactic(auto)]

pub mod answers;
pub mod begun;
pub mod course;
mod drawing;
pub mod due;
pub mod end_role;
mod ends;
pub mod heading;
mod hearing;
mod near_end;
pub mod numerals;
pub mod reading;
pub mod role;
pub mod rooms;
pub mod shell;
pub mod stage;
pub mod standing;
pub mod stop;
mod text;
pub mod waiting;

pub use answers::{Behind, Count, HeadRefused, HeadTaken, Phase, Refused};
pub use begun::Begun;
pub use due::{Due, Origin};
pub use end_role::{EndRole, GiveRefused, RecycleRefused};
pub use hearing::GREETING;
pub use numerals::numbers_are_fixed;
pub use role::Role;
pub use rooms::Rooms;
pub use shell::Shell;
pub use waiting::{FORWARDED_ROOM, Gate, OWN_ROOM, Waiting};
