//! One direction of a leg in memory: bytes on their way from a writer to a reader.

ghost use Rattle.std.specs.Prelude.{◌≡◌, ◌++◌, ◌<◌, ◌≤◌, [], take, drop, length, IfOk};

use circular_buffer::HeapCircularBuffer;
use rh_io::NoMemory;
use std::alloc::Global;
use std::marker::Model;

/// How many bytes a pipe holds at most (64 KiB).
pub const PIPE_ROOM: usize = 65_536;

/// Whether the writer, or the reader, of a pipe goes on.
#[derive(Clone, Copy, Debug, PartialEq, Eq)]
pub enum Side {
    /// It may write, or read, further bytes.
    There,
    /// It has ended.
    Gone,
}

/// What a reader finds.
#[derive(Clone, Copy, PartialEq, Eq)]
pub enum Found {
    /// So many bytes, now in the room.
    Bytes(usize),
    /// No byte, and the writer is gone.
    End,
    /// No byte yet.
    Nothing,
}

/// What becomes of a write.
#[derive(Clone, Copy, PartialEq, Eq)]
pub enum Put {
    /// So many bytes of the piece were taken.
    Bytes(usize),
    /// No byte was taken, since the reader is gone.
    NoReader,
    /// No byte was taken yet, since the pipe is full.
    Full,
}

/// Bytes between a writer and a reader, at most `PIPE_ROOM`.
#[derive(Drop)]
pub struct Pipe {
    ring: HeapCircularBuffer<u8>,
    writer: Side,
    reader: Side,
}

impl Model for Pipe {
    ghost use Rattle.std.specs.Prelude.{◌≡◌};
    ghost use Rattle.rh_net.specs.Memory.Pipes.{Held};
    ghost use Rattle.rh_net.specs.declared.in_memory.pipe.TheConstants.{PIPE_ROOM};

    ghost Value = { Held };

    ghost view = { λ p. record { bytes = p.ring.items; writer = p.writer; reader = p.reader } };

    ghost invariant = { λ p. p.ring.capacity ≡ PIPE_ROOM };
}

impl Pipe {
    ghost use Rattle.rh_net.specs.Memory.Pipes.{found, count_found, is_ready, put, count_put};

    /// An empty pipe, with room for `PIPE_ROOM` bytes, whose writer and reader are there.
    pub fn new(alloc: Global) -> Result<Pipe, NoMemory>
        ensures { IfOk result
            (λ p. p ≡ record { bytes = []; writer = Side.There; reader = Side.There }) }
    {
        Ok(Pipe {
            ring: HeapCircularBuffer::with_capacity(alloc, PIPE_ROOM)?,
            writer: Side::There,
            reader: Side::There,
        })
    }

    /// Reads the next bytes into the front of `room`, as many as there are and fit.
    pub fn take(&mut self, room: &mut [u8]) -> Found
        requires { 0 < length room.old }
        ensures found { result ≡ found self.old (length room.old) }
        ensures bytes { room.new
            ≡ take (count_found result) self.old.bytes ++ drop (count_found result) room.old }
        ensures rest { self.new
            ≡ record self.old { bytes = drop (count_found result) self.old.bytes } }
        ensures bound { count_found result ≤ length room.old }
    {
        if self.ring.is_empty() {
            return match self.writer {
                Side::There => Found::Nothing,
                Side::Gone => Found::End,
            };
        }
        Found::Bytes(self.ring.read_into(room))
    }

    /// Whether a reader finds bytes, or the end.
    pub fn is_ready(&self) -> bool
        ensures { result ≡ is_ready self.now }
    {
        !self.ring.is_empty() || self.writer == Side::Gone
    }

    /// Writes the front of `piece` behind the bytes that are there, as many as fit.
    pub fn put(&mut self, piece: &[u8]) -> Put
        requires { 0 < length piece.now }
        ensures put { result ≡ put self.old (length piece.now) }
        ensures bytes { self.new
            ≡ record self.old { bytes = self.old.bytes ++ take (count_put result) piece.now } }
        ensures bound { count_put result ≤ length piece.now }
    {
        if self.reader == Side::Gone {
            return Put::NoReader;
        }
        if PIPE_ROOM <= self.ring.len() {
            return Put::Full;
        }
        Put::Bytes(self.ring.fill_from_slice(piece))
    }

    /// Ends the writer. The bytes that are there can still be read.
    pub fn end_writer(&mut self)
        ensures { self.new ≡ record self.old { writer = Side.Gone } }
    {
        self.writer = Side::Gone;
    }

    /// Ends the reader. Later writes fail.
    pub fn end_reader(&mut self)
        ensures { self.new ≡ record self.old { reader = Side.Gone } }
    {
        self.reader = Side::Gone;
    }
}
