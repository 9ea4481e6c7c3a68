//! Tests of the crates at the edge: sources and sinks, jobs, nets and turns. They stand here so that
//! such a crate is proved once, and not once more with its tests.
#![tactic(auto)]

#[cfg(test)]
mod in_memory;
#[cfg(test)]
mod io;
#[cfg(test)]
mod jobs;
#[cfg(test)]
mod net;
#[cfg(test)]
mod steps;
#[cfg(test)]
mod tcp;
#[cfg(test)]
mod turn;
