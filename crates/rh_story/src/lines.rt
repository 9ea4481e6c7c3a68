//! The lines of a story.
//!
//! Each call fails where there is no memory; a front of what was to be appended may stand in `out`
//! then, and nothing else.

ghost use Rattle.std.specs.Prelude.{◌≡◌, ◌<◌, ◌++◌, [], ◌∷◌, OnOk, None, codes, length, string_bytes};
ghost use Rattle.rh_text.specs.Writing.{Writes};
ghost use Rattle.rh_record.specs.Report.{report_text, route_text};
ghost use Rattle.rh_story.specs.Brief.{frame_brief, item_brief};
ghost use Rattle.rh_story.specs.Items.{held_from, items_from};
ghost use Rattle.rh_story.specs.Streams as streams;
ghost use Rattle.rh_story.specs.Stories as seen;

use crate::brief::{write_frame, write_item};
use crate::items::is_whole;
use crate::streams::{pipe_of, way_word};
use rh_line::{Dir, Leg, Side};
use rh_record::{Answer, write_answer};
use rh_text::{Part, write_parts};
use std::alloc::AllocError;

const SPACE: Part<'static> = Part::Text(" ");

/// How a line is told: at which moment, in milliseconds, and whether its bytes stand in hex too.
#[derive(Clone, Copy, Debug)]
pub(crate) struct Manner {
    pub(crate) moment: u64,
    pub(crate) hex: bool,
}

/// A leg, of which `None` is that of a direct recording, and a direction.
#[derive(Clone, Copy, Debug)]
pub(crate) struct Stream {
    pub(crate) leg: Option<Leg>,
    pub(crate) dir: Dir,
}

/// Appends the bytes in hex, where that is asked for, and ends the line.
fn write_end(hex: bool, bytes: &[u8], out: &mut String) -> Result<(), AllocError>
    ensures { Writes (seen.end_text hex bytes.now) result
        (string_bytes out.old) (string_bytes out.new) }
{
    if hex {
        write_parts(&[SPACE, Part::Hex(bytes), Part::Text("\n")], out)
    } else {
        out.push_str("\n")
    }
}

/// Appends a PDU, and ends the line.
fn write_pdu_end(hex: bool, bytes: &[u8], out: &mut String) -> Result<(), AllocError>
    ensures { Writes (frame_brief None bytes.now ++ seen.end_text hex bytes.now) result
        (string_bytes out.old) (string_bytes out.new) }
{
    write_frame(None, bytes, out)?;
    write_end(hex, bytes, out)
}

/// Appends the moment, this verb, which has a blank at its end, and the end.
fn write_end_of(
    moment: u64,
    verb: &'static str,
    side: Side,
    out: &mut String,
) -> Result<(), AllocError>
    ensures { Writes (seen.side_text moment verb.now side) result
        (string_bytes out.old) (string_bytes out.new) }
{
    let (verb, side) = (Part::Text(verb), Part::Text(side.word()));
    write_parts(&[Part::Number(moment), SPACE, verb, side, SPACE], out)
}

/// Appends the line that tells a PDU at an end, behind this verb and a blank.
pub(crate) fn write_pdu_line(
    manner: Manner,
    verb: &'static str,
    side: Side,
    bytes: &[u8],
    out: &mut String,
) -> Result<(), AllocError>
    ensures { Writes (seen.pdu_line manner.moment manner.hex verb.now side bytes.now) result
        (string_bytes out.old) (string_bytes out.new) }
{
    write_end_of(manner.moment, verb, side, out)?;
    write_pdu_end(manner.hex, bytes, out)
}

/// Appends an item, and ends the line.
fn write_item_end(
    hex: bool,
    stream: Stream,
    bytes: &[u8],
    out: &mut String,
) -> Result<(), AllocError>
    requires { 0 < length bytes.now }
    ensures { Writes (item_brief (streams.pipe_of stream.leg stream.dir) bytes.now
        ++ seen.end_text hex bytes.now) result (string_bytes out.old) (string_bytes out.new) }
{
    write_item(pipe_of(stream.leg, stream.dir), bytes, out)?;
    write_end(hex, bytes, out)
}

/// Appends the moment and the stream.
fn write_stream(moment: u64, stream: Stream, out: &mut String) -> Result<(), AllocError>
    ensures { Writes (seen.stream_text moment stream.leg stream.dir) result
        (string_bytes out.old) (string_bytes out.new) }
{
    let moment = Part::Number(moment);
    let way = Part::Text(way_word(stream.leg, stream.dir));
    match stream.leg {
        None => write_parts(&[moment, SPACE, Part::Text("cs"), SPACE, way, SPACE], out),
        Some(leg) => {
            let (letters, number) = (
                Part::Text(leg.kind.letters()),
                Part::Number(u64::from(leg.number)),
            );
            write_parts(&[moment, SPACE, letters, number, SPACE, way, SPACE], out)
        }
    }
}

/// Appends the line that tells an item of a stream.
fn write_item_line(
    manner: Manner,
    stream: Stream,
    bytes: &[u8],
    out: &mut String,
) -> Result<(), AllocError>
    requires { 0 < length bytes.now }
    ensures { Writes (seen.item_line manner.moment manner.hex stream.leg stream.dir bytes.now)
        result (string_bytes out.old) (string_bytes out.new) }
{
    write_stream(manner.moment, stream, out)?;
    write_item_end(manner.hex, stream, bytes, out)
}

/// Appends the line that tells the item that is whole by a byte more, if one is, and holds what is
/// left.
fn write_by_byte(
    manner: Manner,
    stream: Stream,
    held: &mut Vec<u8>,
    byte: u8,
    out: &mut String,
) -> Result<(), AllocError>
    ensures text { Writes (seen.item_lines manner.moment manner.hex stream.leg stream.dir
        (items_from held.old.items (byte ∷ []))) result
        (string_bytes out.old) (string_bytes out.new) }
    ensures held { OnOk result (held.new.items ≡ held_from held.old.items (byte ∷ [])) }
{
    held.push(byte)?;
    if !is_whole(held) {
        return Ok(());
    }
    write_item_line(manner, stream, held, out)?;
    held.clear();
    Ok(())
}

/// Appends the lines that tell the items that are whole by these bytes, and holds what is left.
pub(crate) fn write_items(
    manner: Manner,
    stream: Stream,
    held: &mut Vec<u8>,
    bytes: &[u8],
    out: &mut String,
) -> Result<(), AllocError>
    ensures text { Writes (seen.item_lines manner.moment manner.hex stream.leg stream.dir
        (items_from held.old.items bytes.now)) result
        (string_bytes out.old) (string_bytes out.new) }
    ensures held { OnOk result (held.new.items ≡ held_from held.old.items bytes.now) }
{
    'bytes: for byte in bytes {
        write_by_byte(manner, stream, held, *byte, out)?;
    }
    Ok(())
}

/// Appends the line that tells of a round that begins, where one does.
pub(crate) fn write_round(
    moment: u64,
    number: Option<u64>,
    out: &mut String,
) -> Result<(), AllocError>
    ensures { Writes (seen.round_text moment number) result
        (string_bytes out.old) (string_bytes out.new) }
{
    match number {
        None => Ok(()),
        Some(number) => {
            let (moment, number) = (Part::Number(moment), Part::Number(number));
            let word = Part::Text("round ");
            write_parts(&[moment, SPACE, word, number, Part::Text("\n")], out)
        }
    }
}

/// Appends the line that tells an answer as the report does, behind the moment.
pub(crate) fn write_reported(
    moment: u64,
    answer: &Answer,
    out: &mut String,
) -> Result<(), AllocError>
    ensures { Writes (seen.stamped moment (report_text (answer.now ∷ []))) result
        (string_bytes out.old) (string_bytes out.new) }
{
    write_parts(&[Part::Number(moment), SPACE], out)?;
    write_answer(answer, out)
}
