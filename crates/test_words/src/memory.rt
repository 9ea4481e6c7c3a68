//! Words from memory to memory.

use rh_io::{MemSource, Sink, SinkFailed};
use rh_record::Recording;
use rh_words::{Ended, Replay, Status, answer, run_in_memory};
use std::test::Fail;

/// The recording of a PDU that is moved in two pieces, and its report.
const RECORDING: &str = "rh 1 direct\ngive c 05000003100000001800000001000000aabbccddeeff0011\n\
    send cs u 100\nmove cs u 20\ntake s\nmove cs u 100\ntake s\ntake s\n";

const REPORT: &str = "give c ok 24\nsend cs u 24\n\
    move cs u 20 05000003100000001800000001000000aabbccdd\ntake s empty\nmove cs u 4 eeff0011\n\
    take s pdu 05000003100000001800000001000000aabbccddeeff0011\ntake s empty\n\
    up given 1 taken 1\ndown given 0 taken 0\n";

const SHOWN: &str = "fault Cut 1\nfault Cut 2\n";

const PLAYED: &str = "client\nstate opening\n";

#[test]
fn a_text_in_memory_is_answered_whole_where_there_is_room(rt: HostRuntime) -> Result<(), Fail> {
    // A word, its text, what it writes, and how many bytes of this have no room.
    for (word, text, whole, lacks) in [
        ("replay", RECORDING, REPORT, 0),
        ("replay", RECORDING, REPORT, 1),
        ("replay", RECORDING, REPORT, 1000),
        ("show", "ff\nFFff\n", SHOWN, 0),
        ("show", "ff\nFFff\n", SHOWN, 1),
        ("show", "ff\nFFff\n", SHOWN, 1000),
        ("play", "client\nstate\n", PLAYED, 0),
        ("play", "client\nstate\n", PLAYED, 1),
        ("play", "client\nstate\n", PLAYED, 1000),
    ] {
        let words = vec![in rt.alloc(); String::from_str(rt.alloc(), word)?]?;
        let bytes = text.as_bytes().to_vec(rt.alloc())?;
        let room = whole.len().saturating_sub(lacks);
        let (ended, output) = run_in_memory(rt.alloc(), &words, bytes, room)?;
        let all = output.written() == whole.as_bytes();
        let front = whole.as_bytes().starts_with(output.written());
        let (done, fault) = (ended == Status::Done, ended == Status::WriteFault);
        assert!(rt;
            front && all == (lacks == 0) && done == all && fault != all,
            "{word} {room}"
        );
    }
    Ok(())
}

/// A sink that takes one byte a write.
#[derive(Drop)]
struct OneByteSink {
    bytes: Vec<u8>,
    faults: u64,
}

impl Sink for OneByteSink {
    ghost use Rattle.std.specs.Prelude.{Some};

    ghost written = { λ s. Some s.bytes.items };

    ghost faults = { λ s. s.faults };

    fn write(&mut self, piece: &[u8]) -> Result<usize, SinkFailed> {
        if piece.is_empty() {
            return Ok(0);
        }
        if self.bytes.extend_from_slice(&piece[..1]).is_err() {
            self.faults = self.faults.saturating_add(1);
            return Err(SinkFailed);
        }
        Ok(1)
    }
}

#[test]
fn a_sink_that_takes_one_byte_a_write_gets_the_whole_report(rt: HostRuntime) -> Result<(), Fail> {
    let text = RECORDING.as_bytes().to_vec(rt.alloc())?;
    let mut input = MemSource::new(text, Vec::new(rt.alloc()));
    let mut output = OneByteSink {
        bytes: Vec::new(rt.alloc()),
        faults: 0,
    };
    let ended = answer::<Recording, Replay, MemSource, OneByteSink>(
        rt.alloc(),
        &mut input,
        &mut output,
    );
    assert_eq!(rt; ended, Ended::Done);
    assert!(rt; output.bytes.as_slice() == REPORT.as_bytes());
    Ok(())
}
