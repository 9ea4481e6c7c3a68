//! The words of the roles, without the program: which words are which role's, what runs of them,
//! and how each run ends.
#![tactic(auto)]

pub mod addresses;
pub mod configs;
pub mod form;
pub mod numerals;
pub mod running;
pub mod status;

pub use addresses::{HostPort, HostPorts, write_address};
pub use configs::Limits;
pub use form::{RoleForm, role_form_of};
pub use numerals::numbers_are_fixed;
pub use running::{Running, run_role};
pub use status::{RoleStatus, status_of_ends};
