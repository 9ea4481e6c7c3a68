//! Pipes, callers, and legs between threads, with the answers worked out by hand.

mod legs;
mod threads;
mod values;
