//! Each world of roles is at a moment of a virtual connection, and so replacements of channels go
//! round in it. Its functions do nothing: their contracts are the laws.

pub mod rounds;
pub mod worlds;

pub use rounds::replacements_of_a_world_go_round;
pub use worlds::a_world_of_roles_is_at_a_moment;
