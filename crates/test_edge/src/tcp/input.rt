//! What standard input may be.

use rh_io::Source;
use rh_net::Ready;
use rh_tcp::*;
use std::fs::File;
use std::io::{Write, pipe};
use std::test::*;

#[test]
fn a_pipe_is_ready_for_bytes_and_at_its_end(rt: HostRuntime) -> Result<(), Fail> {
    let (reader, mut writer) = pipe(&rt)?;
    let mut input = StdInput::new(&rt, rt.alloc(), reader);
    let mut room = [0u8; 2];
    let before = input.ready(20);
    writer.write_all(b"abc")?;
    let with_bytes = input.ready(20);
    let first = input.read(&mut room);
    let with_the_rest = input.ready(20);
    let second = input.read(&mut room);
    let after = input.ready(20);
    drop(writer);
    let at_end = input.ready(20);
    assert_eq!(rt;
        [before, with_bytes, with_the_rest, after, at_end],
        [false, true, true, false, true]
    );
    assert_eq!(rt;
        [first, second, input.read(&mut room)],
        [Ok(2), Ok(1), Ok(0)]
    );
    Ok(())
}

#[test]
fn a_file_is_always_ready(rt: HostRuntime) -> Result<(), Fail> {
    let mut input = StdInput::new(&rt, rt.alloc(), File::open(&rt, "/dev/null")?);
    assert!(rt; input.ready(0));
    assert_eq!(rt; input.read(&mut [0u8; 2]), Ok(0));
    Ok(())
}
