//! A net in memory for several roles: a board of callers, whose legs are two pipes each.

pub mod board;
pub mod callers;
mod lane;
mod leg_half;
pub mod mem_net;
pub mod pipe;
mod two_ways;

pub use board::Board;
pub use callers::{Caller, Callers, Calling};
pub use mem_net::{LegFails, MemNet, PipeSink, PipeSource};
pub use pipe::{Found, PIPE_ROOM, Pipe, Put, Side};
