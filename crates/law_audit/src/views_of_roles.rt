//! What order sees of each role is what an audit sees on its pipes.

pub mod views;

pub use views::what_roles_see_fits;
