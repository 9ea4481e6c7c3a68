//! Runs on real threads. The answers are worked out by hand.

mod bounds;
mod order;
mod refusals;
mod squares;
