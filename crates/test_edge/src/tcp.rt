//! One run of each form, over loopback, and over a pipe of the system's.

mod input;
mod legs;
mod moments;
