//! How much of a channel's lifetime is used, and for how long a leg was idle (MS-RPCH 3.2).
#![tactic(auto)]

pub mod idle;
pub mod laws;
pub mod meter;
pub mod numerals;
pub mod range;

pub use idle::Idle;
pub use laws::meter_adds_up;
pub use meter::{Meter, REPLACED_BEFORE, RESERVE};
pub use numerals::numbers_are_fixed;
pub use range::{DEFAULT_LIFETIME, GREATEST_LIFETIME, LEAST_LIFETIME};
