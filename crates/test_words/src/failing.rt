//! Inputs and outputs of which one call fails.

use rh_io::{MemSink, MemSource};
use rh_record::Recording;
use rh_script::Script;
use rh_show::Packets;
use rh_text::Grammar;
use rh_words::{Play, Replay, Show, Status, Word, answer};
use std::test::Fail;

/// Room for the longest output of a test.
const ROOM: usize = 1_000_000;

/// How a word ends, and what it writes of a text, where the calls with these numbers fail.
fn answered<G: Grammar, X: Word<G>>(
    rt: &HostRuntime,
    text: &[u8],
    reads: Vec<u64>,
    writes: Vec<u64>,
) -> Result<(Status, MemSink), Fail> {
    let mut input = MemSource::new(text.to_vec(rt.alloc())?, reads);
    let mut output = MemSink::new(rt.alloc(), ROOM, writes)?;
    let ended = answer::<G, X, MemSource, MemSink>(rt.alloc(), &mut input, &mut output);
    Ok((Status::from(ended), output))
}

/// The first number that no call has, where each failing call before it is told: a failing read
/// with nothing written, a failing write with a front of the output. 0 where one is not.
fn told<G: Grammar, X: Word<G>>(
    rt: &HostRuntime,
    text: &[u8],
    whole: &[u8],
    fault: Status,
) -> Result<u64, Fail> {
    for call in 1..100 {
        let (mut reads, mut writes) = (Vec::new(rt.alloc()), Vec::new(rt.alloc()));
        let (fails, most) = match fault {
            Status::ReadFault => (&mut reads, 0),
            _ => (&mut writes, whole.len()),
        };
        fails.push(call)?;
        let (status, output) = answered::<G, X>(rt, text, reads, writes)?;
        let written = output.written();
        if status == Status::Done && written == whole {
            return Ok(call);
        }
        if status != fault || written.len() > most || !whole.starts_with(written) {
            return Ok(0);
        }
    }
    Ok(0)
}

/// Whether so many reads at least and so many writes at least of a word fail one by one, each told.
fn fails<G: Grammar, X: Word<G>>(
    rt: &HostRuntime,
    text: &[u8],
    reads: u64,
    writes: u64,
) -> Result<bool, Fail> {
    let (none, no) = (Vec::new(rt.alloc()), Vec::new(rt.alloc()));
    let (status, whole) = answered::<G, X>(rt, text, none, no)?;
    let read = told::<G, X>(rt, text, whole.written(), Status::ReadFault)?;
    let written = told::<G, X>(rt, text, whole.written(), Status::WriteFault)?;
    Ok(status == Status::Done && read > reads && written > writes)
}

/// A line again and again.
fn lines(rt: &HostRuntime, line: &str, count: usize) -> Result<String, Fail> {
    let mut text = String::new(rt.alloc());
    for _ in 0..count {
        text.push_str(line)?;
    }
    Ok(text)
}

/// Eight PDUs of 8,192 bytes, which a settling moves over both legs: a report of several pieces.
fn settling(rt: &HostRuntime) -> Result<String, Fail> {
    let mut give = String::from_str(rt.alloc(), "give c 05000003100000000020000001000000")?;
    give.push_str(lines(rt, "01", 8176)?.as_str())?;
    give.push_str("\n")?;
    let mut text = String::from_str(rt.alloc(), "rh 1 roles\n")?;
    text.push_str(lines(rt, give.as_str(), 8)?.as_str())?;
    text.push_str("settle 100\n")?;
    Ok(text)
}

#[test]
fn a_failing_input_or_output_is_told(rt: HostRuntime) -> Result<(), Fail> {
    // A short one, and texts for several reads and several writes.
    let short = "rh 1 direct\ntake s\ntake s\n";
    let long = settling(&rt)?;
    let packets = lines(
        &rt,
        "050014031000000018000000000000000000010007000000\n",
        9000,
    )?;
    let mut steps = String::from_str(rt.alloc(), "server\n")?;
    steps.push_str(lines(&rt, "state\n", 18_000)?.as_str())?;
    assert!(rt; fails::<Recording, Replay>(&rt, short.as_bytes(), 1, 1)?);
    assert!(rt; fails::<Recording, Replay>(&rt, long.as_bytes(), 2, 3)?);
    assert!(rt; fails::<Packets, Show>(&rt, packets.as_bytes(), 3, 2)?);
    assert!(rt; fails::<Script, Play>(&rt, steps.as_bytes(), 1, 2)?);
    Ok(())
}
