//! The source and the sink in memory.

use super::{sink, source};
use rh_io::{Sink, SinkFailed, Source, SourceFailed};
use std::test::*;

#[test]
fn a_memory_source_gives_its_bytes_in_order_and_fails_where_asked(
    rt: HostRuntime,
) -> Result<(), Fail> {
    // The room of a read, what it answers, and what then stands at the front of the room.
    static READS: [(usize, Result<usize, SourceFailed>, &[u8]); 5] = [
        (3, Ok(3), b"hel"),
        (3, Err(SourceFailed), b""),
        (3, Ok(2), b"lo"),
        (0, Ok(0), b""),
        (3, Ok(0), b""),
    ];
    let mut source = source(rt.alloc(), b"hello", &[2])?;
    let mut room = [0u8; 3];
    for (most, answer, front) in &READS {
        let came = source.read(&mut room[..(*most).min(3)]);
        assert_eq!(rt; came, *answer);
        assert!(rt; room.starts_with(front));
    }
    Ok(())
}

#[test]
fn a_memory_sink_takes_what_fits_and_fails_where_asked_or_full(
    rt: HostRuntime,
) -> Result<(), Fail> {
    let mut sink = sink(rt.alloc(), 5, &[2])?;
    // The piece of a write, and what it answers.
    static WRITES: [(&[u8], Result<usize, SinkFailed>); 5] = [
        (b"hel", Ok(3)),
        (b"l", Err(SinkFailed)),
        (b"", Ok(0)),
        (b"lo!", Ok(2)),
        (b"!", Err(SinkFailed)),
    ];
    for (piece, answer) in &WRITES {
        assert_eq!(rt; sink.write(piece), *answer);
    }
    assert_eq!(rt; sink.written(), b"hello".as_slice());
    Ok(())
}
