//! Where bytes come from and where they go: traits of the outside that count its failures, their
//! forms in memory, adapters over the readers and writers of std, and calls that move a whole.
#![tactic(auto)]

pub mod fault;
pub mod laws;
pub mod memory;
pub mod reader;
pub mod sink;
pub mod source;
pub mod whole;
pub mod writer;

pub use fault::ReadWholeError;
pub use laws::{read_from_memory, write_to_memory};
pub use memory::{MemSink, MemSource};
pub use reader::ReaderSource;
pub use sink::{Sink, SinkFailed};
pub use source::{Source, SourceFailed};
pub use std::alloc::AllocError as NoMemory;
pub use whole::{READ_ROOM, read_whole, write_whole};
pub use writer::WriterSink;
