//! The worlds of recordings, driven line by line: the direct one, where a client and a server are
//! joined by one leg, and that of the real roles.
#![tactic(auto)]

pub mod any_world;
pub mod config;
pub mod numerals;
mod received;
pub mod roles;
pub mod roles_world;
mod way;
pub mod world;

pub use any_world::AnyWorld;
pub use config::WorldConfig;
pub use numerals::numbers_are_fixed;
pub use roles::Roles;
pub use roles_world::RolesWorld;
pub use world::World;
