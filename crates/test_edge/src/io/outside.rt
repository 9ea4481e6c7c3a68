//! The adapters over readers and writers of std.

use rh_io::{ReaderSource, Sink, SinkFailed, Source, WriterSink, write_whole};
use std::io::{self, Write};
use std::test::*;

#[test]
fn a_reader_source_gives_what_its_reader_gives(rt: HostRuntime) {
    let mut source = ReaderSource::new(b"hello".as_slice());
    let mut room = [0u8; 3];
    assert_eq!(rt; source.read(&mut room), Ok(3));
    assert_eq!(rt; room, *b"hel");
    assert_eq!(rt; source.read(&mut room), Ok(2));
    assert_eq!(rt; source.read(&mut room), Ok(0));
}

#[test]
fn a_writer_sink_fails_once_its_writer_takes_nothing(rt: HostRuntime) {
    let mut room = [0u8; 3];
    let mut sink = WriterSink::new(room.as_mut_slice());
    assert_eq!(rt; sink.write(b"hello"), Ok(3));
    assert_eq!(rt; sink.write(b"lo"), Err(SinkFailed));
    assert_eq!(rt; room, *b"hel");
}

// A writer that takes one byte of each piece, and fails at its third.
#[derive(Drop)]
struct Narrow {
    bytes: Vec<u8>,
}

impl Write for Narrow {
    fn write(&mut self, piece: &[u8]) -> io::Result<usize> {
        if self.bytes.len() == 3 {
            return Err(io::Error::from(io::ErrorKind::BrokenPipe));
        }
        match piece.first() {
            Some(&byte) => {
                self.bytes.push(byte)?;
                Ok(1)
            }
            None => Ok(0),
        }
    }

    fn flush(&mut self) -> io::Result<()> {
        Ok(())
    }
}

#[test]
fn a_piece_goes_on_after_short_writes(rt: HostRuntime) {
    let bytes = Vec::new(rt.alloc());
    let mut narrow = Narrow { bytes };
    assert_eq!(rt;
        write_whole(&mut WriterSink::new(&mut narrow), b"abc"),
        Ok(())
    );
    assert_eq!(rt; narrow.bytes.as_slice(), b"abc".as_slice());
    assert_eq!(rt;
        write_whole(&mut WriterSink::new(&mut narrow), b"d"),
        Err(SinkFailed)
    );
    assert_eq!(rt; narrow.bytes.as_slice(), b"abc".as_slice());
}
