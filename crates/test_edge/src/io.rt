//! One run of each public call, with the bytes and answers worked out by hand.

mod memory;
mod outside;
mod whole;

use rh_io::{MemSink, MemSource, NoMemory};
use std::alloc::Global;

fn source(alloc: Global, bytes: &[u8], fails: &[u64]) -> Result<MemSource, NoMemory> {
    let bytes = Vec::from_slice(alloc, bytes)?;
    Ok(MemSource::new(bytes, Vec::from_slice(alloc, fails)?))
}

fn sink(alloc: Global, room: usize, fails: &[u64]) -> Result<MemSink, NoMemory> {
    MemSink::new(alloc, room, Vec::from_slice(alloc, fails)?)
}
