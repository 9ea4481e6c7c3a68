//! Reading a source whole, and writing a piece whole.

use super::{sink, source};
use rh_io::{
    ReadWholeError, SinkFailed, read_from_memory, read_whole, write_to_memory, write_whole,
};
use std::test::*;

#[test]
fn a_source_is_read_whole_up_to_the_limit(rt: HostRuntime) -> Result<(), Fail> {
    let mut at_limit = source(rt.alloc(), b"hello", &[])?;
    let all = read_whole(rt.alloc(), &mut at_limit, 5)?;
    assert_eq!(rt; all.as_slice(), b"hello".as_slice());

    let mut above = source(rt.alloc(), b"hello!", &[])?;
    let refused = read_whole(rt.alloc(), &mut above, 5).err();
    assert_eq!(rt; refused, Some(ReadWholeError::TooLong));

    let mut broken = source(rt.alloc(), b"hello", &[2])?;
    let refused = read_whole(rt.alloc(), &mut broken, 5).err();
    assert_eq!(rt; refused, Some(ReadWholeError::ReadFault));
    Ok(())
}

#[test]
fn a_piece_is_written_whole_or_to_where_a_write_failed(rt: HostRuntime) -> Result<(), Fail> {
    let mut ample = sink(rt.alloc(), 8, &[])?;
    assert_eq!(rt; write_whole(&mut ample, b"hello"), Ok(()));
    assert_eq!(rt; ample.written(), b"hello".as_slice());

    let mut small = sink(rt.alloc(), 3, &[])?;
    assert_eq!(rt; write_whole(&mut small, b"hello"), Err(SinkFailed));
    assert_eq!(rt; small.written(), b"hel".as_slice());
    Ok(())
}

#[test]
fn memory_of_which_no_call_fails_is_read_and_written_whole(rt: HostRuntime) -> Result<(), Fail> {
    let bytes = Vec::from_slice(rt.alloc(), b"hello")?;
    let all = read_from_memory(rt.alloc(), bytes, 5)?;
    assert_eq!(rt; all.as_slice(), b"hello".as_slice());

    let sink = write_to_memory(rt.alloc(), b"hello", 5)?;
    assert_eq!(rt; sink.written(), b"hello".as_slice());
    Ok(())
}
