//! One run of each public call, with the answers worked out by hand.

mod legs;
mod moments;
