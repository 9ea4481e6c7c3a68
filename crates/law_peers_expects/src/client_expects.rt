//! What comes next at a client. Its functions do nothing: their contracts are the laws.

pub mod expecting;
pub mod wanted;

pub use expecting::a_client_expects_what_comes;
pub use wanted::successors_are_wanted_in_turn;
