//! Writes the lines of a report: the answers as text.
//!
//! Each call fails where there is no memory; a front of what was to be appended may stand in `out`
//! then, and nothing else.

ghost use Rattle.std.specs.Prelude.{◌≡◌, ◌++◌, ◌∷◌, [], Some, None, Ok, Err, codes, string_bytes};
ghost use Rattle.std.specs.Fmt.{decimal};
ghost use Rattle.rh_text.specs.Ends.{dir_word};
ghost use Rattle.rh_text.specs.Writing.{Writes, parts_text};
ghost use Rattle.rh_pdu.specs.Texts.{pdu_fault_text};
ghost use Rattle.rh_line.specs.Texts.{cause_text, leg_text};
ghost use Rattle.rh_record.specs.declared.answer.Answer.TheVariants as answers;
ghost use Rattle.rh_record.specs.declared.answer.TakeAnswer.TheVariants as takes;
ghost use Rattle.rh_record.specs.Report.{channels_text, done_text, end_name, recycle_text, report_text};

use crate::answer::{Answer, TakeAnswer, Who};
use crate::report::Report;
use rh_line::{Cause, Dir, GiveFault, Leg, RecycleFault, Side, State, write_cause};
use rh_pdu::{PduFault, write_pdu_fault};
use rh_text::{Bytes, Part, write_five, write_parts, write_three};
use std::alloc::AllocError;

const SPACE: Part<'static> = Part::Text(" ");

const END: Part<'static> = Part::Text("\n");

/// The word for whether something could be done, behind a blank.
fn done_word(ok: bool) -> &'static str
    ensures { result.now ≡ done_text ok }
{
    if ok { " ok" } else { " no" }
}

/// The name of an end in the last lines, before a blank.
fn end_name(side: Side) -> &'static str
    ensures { result.now ≡ end_name side }
{
    match side {
        Side::Client => "client ",
        Side::Server => "server ",
    }
}

/// Appends parts and a cause, as a line.
fn write_caused(front: &[Part<'_>], cause: &Cause, out: &mut String) -> Result<(), AllocError>
    ensures { Writes (parts_text front.now ++ (cause_text cause.now ++ codes "\n")) result
        (string_bytes out.old) (string_bytes out.new) }
{
    write_parts(front, out)?;
    write_cause(cause, out)?;
    write_parts(&[END], out)
}

/// Appends parts and the fault of bytes that are no PDU, as a line.
fn write_faulty(front: &[Part<'_>], fault: PduFault, out: &mut String) -> Result<(), AllocError>
    ensures { Writes (parts_text front.now ++ (pdu_fault_text fault ++ codes "\n")) result
        (string_bytes out.old) (string_bytes out.new) }
{
    write_parts(front, out)?;
    write_pdu_fault(fault, out)?;
    write_parts(&[END], out)
}

// What is written of most lines is kept apart from the rest, whose parts would take their room too.

/// Appends the answer to a give that was accepted.
fn write_accepted(side: Side, len: u16, out: &mut String) -> Result<(), AllocError>
    ensures { Writes (report_text (answers.Give side (Ok len) ∷ [])) result
        (string_bytes out.old) (string_bytes out.new) }
{
    let (give, side_word) = (Part::Text("give "), Part::Text(side.word()));
    let len = Part::Number(u64::from(len));
    write_five(&[give, side_word, Part::Text(" ok "), len, END], out)
}

/// Appends the answer to a give that was refused.
fn write_refused(side: Side, fault: &GiveFault, out: &mut String) -> Result<(), AllocError>
    ensures { Writes (report_text (answers.Give side (Err fault.now) ∷ [])) result
        (string_bytes out.old) (string_bytes out.new) }
{
    let (give, side_word) = (Part::Text("give "), Part::Text(side.word()));
    match fault {
        GiveFault::Full { held, len } => {
            let (held, len) = (Part::Number(*held as u64), Part::Number(*len as u64));
            let full = Part::Text(" full ");
            write_parts(&[give, side_word, full, held, SPACE, len, END], out)
        }
        GiveFault::BadPdu(fault) => {
            write_faulty(&[give, side_word, Part::Text(" bad ")], *fault, out)
        }
        GiveFault::Closing => write_parts(&[give, side_word, Part::Text(" closing\n")], out),
        GiveFault::Closed(cause) => {
            write_caused(&[give, side_word, Part::Text(" closed ")], cause, out)
        }
    }
}

/// Appends the answer to a give.
fn write_give(
    side: Side,
    answer: &Result<u16, GiveFault>,
    out: &mut String,
) -> Result<(), AllocError>
    ensures { Writes (report_text (answers.Give side answer.now ∷ [])) result
        (string_bytes out.old) (string_bytes out.new) }
{
    match answer {
        Ok(len) => write_accepted(side, *len, out),
        Err(fault) => write_refused(side, fault, out),
    }
}

/// Appends the answer to a take that gave a PDU.
fn write_pdu(side: Side, pdu: &[u8], out: &mut String) -> Result<(), AllocError>
    ensures { Writes (report_text (answers.Take side (takes.Pdu pdu.now) ∷ [])) result
        (string_bytes out.old) (string_bytes out.new) }
{
    let (take, side_word) = (Part::Text("take "), Part::Text(side.word()));
    let (gave, hex) = (Part::Text(" pdu "), Part::Hex(pdu));
    write_five(&[take, side_word, gave, hex, END], out)
}

/// Appends the answer to a take, whatever it gave.
fn write_any_take(side: Side, answer: &TakeAnswer, out: &mut String) -> Result<(), AllocError>
    ensures { Writes (report_text (answers.Take side answer.now ∷ [])) result
        (string_bytes out.old) (string_bytes out.new) }
{
    let (take, side_word) = (Part::Text("take "), Part::Text(side.word()));
    match answer {
        TakeAnswer::Pdu(bytes) => write_pdu(side, bytes.as_slice(), out),
        TakeAnswer::Empty => write_parts(&[take, side_word, Part::Text(" empty\n")], out),
        TakeAnswer::Ended => write_parts(&[take, side_word, Part::Text(" ended\n")], out),
        TakeAnswer::Closed(cause) => {
            write_caused(&[take, side_word, Part::Text(" closed ")], cause, out)
        }
    }
}

/// Appends the answer to a take.
fn write_take(side: Side, answer: &TakeAnswer, out: &mut String) -> Result<(), AllocError>
    ensures { Writes (report_text (answers.Take side answer.now ∷ [])) result
        (string_bytes out.old) (string_bytes out.new) }
{
    match answer {
        TakeAnswer::Pdu(bytes) => write_pdu(side, bytes.as_slice(), out),
        _ => write_any_take(side, answer, out),
    }
}

/// Appends the answer to a send on a leg of a recording of roles.
fn write_send_on(leg: Leg, dir: Dir, count: Option<u32>, out: &mut String) -> Result<(), AllocError>
    ensures { Writes (report_text (answers.Send (Some leg) dir count ∷ [])) result
        (string_bytes out.old) (string_bytes out.new) }
{
    let (send, dir_word) = (Part::Text("send "), Part::Text(dir.word()));
    let (letters, number) = (
        Part::Text(leg.kind.letters()),
        Part::Number(u64::from(leg.number)),
    );
    match count {
        Some(count) => {
            let count = Part::Number(u64::from(count));
            write_parts(
                &[send, letters, number, SPACE, dir_word, SPACE, count, END],
                out,
            )
        }
        None => {
            let no = Part::Text(" no\n");
            write_parts(&[send, letters, number, SPACE, dir_word, no], out)
        }
    }
}

/// Appends the answer to a send.
fn write_send(
    leg: Option<Leg>,
    dir: Dir,
    count: Option<u32>,
    out: &mut String,
) -> Result<(), AllocError>
    ensures { Writes (report_text (answers.Send leg dir count ∷ [])) result
        (string_bytes out.old) (string_bytes out.new) }
{
    let send = Part::Text(sent_words(dir));
    match (leg, count) {
        (Some(leg), _) => write_send_on(leg, dir, count, out),
        (None, Some(count)) => {
            let count = Part::Number(u64::from(count));
            write_three(&[send, count, END], out)
        }
        (None, None) => write_parts(&[send, Part::Text("no\n")], out),
    }
}

/// Appends the answer to a move of bytes on a leg of a recording of roles.
fn write_move_on(leg: Leg, dir: Dir, bytes: &[u8], out: &mut String) -> Result<(), AllocError>
    ensures { Writes (report_text (answers.Move (Some leg) dir (Some bytes.now) ∷ [])) result
        (string_bytes out.old) (string_bytes out.new) }
{
    let (moved, dir_word) = (Part::Text("move "), Part::Text(dir.word()));
    let (letters, number) = (
        Part::Text(leg.kind.letters()),
        Part::Number(u64::from(leg.number)),
    );
    if bytes.is_empty() {
        let none = Part::Text(" 0\n");
        return write_parts(&[moved, letters, number, SPACE, dir_word, none], out);
    }
    let (len, hex) = (Part::Number(bytes.len() as u64), Part::Hex(bytes));
    write_parts(
        &[
            moved, letters, number, SPACE, dir_word, SPACE, len, SPACE, hex, END,
        ],
        out,
    )
}

/// The words before the count of a send on the leg of a direct recording.
fn sent_words(dir: Dir) -> &'static str
    ensures { result.now ≡ codes "send cs " ++ dir_word dir ++ codes " " }
{
    match dir {
        Dir::U => "send cs u ",
        Dir::D => "send cs d ",
    }
}

/// The words before the count of a move on the leg of a direct recording.
fn moved_words(dir: Dir) -> &'static str
    ensures { result.now ≡ codes "move cs " ++ dir_word dir ++ codes " " }
{
    match dir {
        Dir::U => "move cs u ",
        Dir::D => "move cs d ",
    }
}

/// Appends the answer to a move of bytes on the leg of a direct recording.
fn write_move_direct(dir: Dir, bytes: &[u8], out: &mut String) -> Result<(), AllocError>
    ensures { Writes (report_text (answers.Move None dir (Some bytes.now) ∷ [])) result
        (string_bytes out.old) (string_bytes out.new) }
{
    let moved = Part::Text(moved_words(dir));
    if bytes.is_empty() {
        return write_parts(&[moved, Part::Text("0\n")], out);
    }
    let (len, hex) = (Part::Number(bytes.len() as u64), Part::Hex(bytes));
    write_five(&[moved, len, SPACE, hex, END], out)
}

/// Appends the answer to a move on a leg that isn't up.
fn write_no_move(leg: Option<Leg>, dir: Dir, out: &mut String) -> Result<(), AllocError>
    ensures { Writes (report_text (answers.Move leg dir None ∷ [])) result
        (string_bytes out.old) (string_bytes out.new) }
{
    let (dir_word, no) = (Part::Text(dir.word()), Part::Text(" no\n"));
    match leg {
        None => write_parts(&[Part::Text("move cs "), dir_word, no], out),
        Some(leg) => {
            let (moved, letters) = (Part::Text("move "), Part::Text(leg.kind.letters()));
            let number = Part::Number(u64::from(leg.number));
            write_parts(&[moved, letters, number, SPACE, dir_word, no], out)
        }
    }
}

/// Appends the answer to a move.
fn write_move(
    leg: Option<Leg>,
    dir: Dir,
    bytes: &Option<Bytes>,
    out: &mut String,
) -> Result<(), AllocError>
    ensures { Writes (report_text (answers.Move leg dir bytes.now ∷ [])) result
        (string_bytes out.old) (string_bytes out.new) }
{
    match (leg, bytes) {
        (Some(leg), Some(bytes)) => write_move_on(leg, dir, bytes.as_slice(), out),
        (None, Some(bytes)) => write_move_direct(dir, bytes.as_slice(), out),
        (_, None) => write_no_move(leg, dir, out),
    }
}

/// Appends whether a channel is being replaced, behind the words of the line.
fn write_recycle(
    line: &str,
    answer: &Result<(), RecycleFault>,
    out: &mut String,
) -> Result<(), AllocError>
    ensures { Writes (line.now ++ (recycle_text answer.now ++ codes "\n")) result
        (string_bytes out.old) (string_bytes out.new) }
{
    let line = Part::Text(line);
    match answer {
        Ok(()) => write_parts(&[line, Part::Text(" ok\n")], out),
        Err(RecycleFault::Busy { under_way }) => {
            let letters = Part::Text(under_way.kind.letters());
            let number = Part::Number(u64::from(under_way.number));
            write_parts(&[line, Part::Text(" busy "), letters, number, END], out)
        }
        Err(RecycleFault::NotOpen) => write_parts(&[line, Part::Text(" notopen\n")], out),
        Err(RecycleFault::Last) => write_parts(&[line, Part::Text(" last\n")], out),
    }
}

/// Appends that a node closed.
fn write_closed(who: Who, cause: &Cause, out: &mut String) -> Result<(), AllocError>
    ensures { Writes (report_text (answers.NodeClosed who cause.now ∷ [])) result
        (string_bytes out.old) (string_bytes out.new) }
{
    match who {
        Who::Client => write_caused(&[Part::Text("closed c ")], cause, out),
        Who::Server => write_caused(&[Part::Text("closed s ")], cause, out),
        Who::In(number) => {
            let number = Part::Number(u64::from(number));
            write_caused(&[Part::Text("closed i"), number, SPACE], cause, out)
        }
        Who::Out(number) => {
            let number = Part::Number(u64::from(number));
            write_caused(&[Part::Text("closed o"), number, SPACE], cause, out)
        }
    }
}

/// Appends a last line of an end that didn't close.
fn write_open_end(
    side: Side,
    state: &str,
    inbound: u32,
    outbound: u32,
    out: &mut String,
) -> Result<(), AllocError>
    ensures { Writes (end_name side ++ (state.now ++
        (channels_text inbound outbound ++ codes "\n")))
        result (string_bytes out.old) (string_bytes out.new) }
{
    let (name, state) = (Part::Text(end_name(side)), Part::Text(state));
    let (inbound, outbound) = (
        Part::Number(u64::from(inbound)),
        Part::Number(u64::from(outbound)),
    );
    let (to_server, to_client) = (Part::Text(" in "), Part::Text(" out "));
    write_parts(
        &[name, state, to_server, inbound, to_client, outbound, END],
        out,
    )
}

/// Appends a last line of an end.
fn write_last(
    side: Side,
    state: &State,
    inbound: u32,
    outbound: u32,
    out: &mut String,
) -> Result<(), AllocError>
    ensures { Writes (report_text (answers.Last side state.now inbound outbound ∷ [])) result
        (string_bytes out.old) (string_bytes out.new) }
{
    match state {
        State::Opening => write_open_end(side, "opening", inbound, outbound, out),
        State::Open => write_open_end(side, "open", inbound, outbound, out),
        State::Ended => write_open_end(side, "ended", inbound, outbound, out),
        State::Closed(cause) => {
            let name = Part::Text(end_name(side));
            write_caused(&[name, Part::Text("closed ")], cause, out)
        }
    }
}

/// Appends the counts of a direction.
fn write_counts(line: &str, given: u32, taken: u32, out: &mut String) -> Result<(), AllocError>
    ensures { Writes (line.now ++ (decimal given ++ (codes " taken " ++
        (decimal taken ++ codes "\n"))))
        result (string_bytes out.old) (string_bytes out.new) }
{
    let (given, taken) = (
        Part::Number(u64::from(given)),
        Part::Number(u64::from(taken)),
    );
    write_parts(
        &[Part::Text(line), given, Part::Text(" taken "), taken, END],
        out,
    )
}

/// Appends the answer to a line of a leg and of no direction, behind whose name this word stands.
fn write_leg_done<'a>(
    line: &'a str,
    leg: Leg,
    word: &'a str,
    ok: bool,
    out: &mut String,
) -> Result<(), AllocError>
    ensures { Writes (line.now ++ (leg_text leg ++ (word.now ++ (done_text ok ++ codes "\n"))))
        result (string_bytes out.old) (string_bytes out.new) }
{
    let letters = Part::Text(leg.kind.letters());
    let number = Part::Number(u64::from(leg.number));
    let (word, done) = (Part::Text(word), Part::Text(done_word(ok)));
    write_parts(&[Part::Text(line), letters, number, word, done, END], out)
}

/// Appends the answer to an end.
fn write_end(leg: Leg, dir: Dir, ok: bool, out: &mut String) -> Result<(), AllocError>
    ensures { Writes (report_text (answers.EndLeg leg dir ok ∷ [])) result
        (string_bytes out.old) (string_bytes out.new) }
{
    let letters = Part::Text(leg.kind.letters());
    let number = Part::Number(u64::from(leg.number));
    let (dir_word, done) = (Part::Text(dir.word()), Part::Text(done_word(ok)));
    write_parts(
        &[
            Part::Text("end "),
            letters,
            number,
            SPACE,
            dir_word,
            done,
            END,
        ],
        out,
    )
}

/// Appends a number behind words.
fn write_numbered<'a>(
    line: &'a str,
    number: u64,
    end: &'a str,
    out: &mut String,
) -> Result<(), AllocError>
    ensures { Writes (line.now ++ (decimal number ++ (end.now ++ codes "\n")))
        result (string_bytes out.old) (string_bytes out.new) }
{
    write_parts(
        &[Part::Text(line), Part::Number(number), Part::Text(end), END],
        out,
    )
}

/// Appends the answer to a close.
fn write_close(side: Side, out: &mut String) -> Result<(), AllocError>
    ensures { Writes (report_text (answers.Close side ∷ [])) result
        (string_bytes out.old) (string_bytes out.new) }
{
    let side_word = Part::Text(side.word());
    write_parts(&[Part::Text("close "), side_word, Part::Text(" ok\n")], out)
}

/// Appends the text of an answer, with LF at its end.
///
/// Fails where there is no memory; a front of the text may stand in `out` then, and nothing else.
pub fn write_answer(answer: &Answer, out: &mut String) -> Result<(), AllocError>
    ensures { Writes (report_text (answer.now ∷ [])) result (string_bytes out.old)
        (string_bytes out.new) }
{
    match answer {
        Answer::Give { side, answer } => write_give(*side, answer, out),
        Answer::Take { side, answer } => write_take(*side, answer, out),
        Answer::Close { side } => write_close(*side, out),
        Answer::Send { leg, dir, count } => write_send(*leg, *dir, *count, out),
        Answer::Move { leg, dir, bytes } => write_move(*leg, *dir, bytes, out),
        Answer::OpenLeg { leg, ok } => write_leg_done("open ", *leg, "", *ok, out),
        Answer::OpenSame { leg, ok } => write_leg_done("open ", *leg, " same", *ok, out),
        Answer::BreakLeg { leg, ok } => write_leg_done("break ", *leg, "", *ok, out),
        Answer::EndLeg { leg, dir, ok } => write_end(*leg, *dir, *ok, out),
        Answer::Tick { now, ok } => write_numbered("tick ", *now, done_word(*ok), out),
        Answer::RecycleIn(answer) => write_recycle("recycle in", answer, out),
        Answer::RecycleOut(answer) => write_recycle("recycle out", answer, out),
        Answer::Quiet(rounds) => write_numbered("quiet ", u64::from(*rounds), "", out),
        Answer::Spent(rounds) => write_numbered("spent ", u64::from(*rounds), "", out),
        Answer::NodeClosed { who, cause } => write_closed(*who, cause, out),
        Answer::Up { given, taken } => write_counts("up given ", *given, *taken, out),
        Answer::Down { given, taken } => write_counts("down given ", *given, *taken, out),
        Answer::Last {
            side,
            state,
            inbound,
            outbound,
        } => write_last(*side, state, *inbound, *outbound, out),
    }
}

/// Appends the text of a report: one answer a line.
///
/// Fails where there is no memory; a front of the text may stand in `out` then, and nothing else.
#[inline(always)]
pub fn write_report(report: &Report, out: &mut String) -> Result<(), AllocError>
    ensures { Writes (report_text report.now) result (string_bytes out.old) (string_bytes out.new) }
{
    let answers = report.answers();
    for answer in answers {
        write_answer(answer, out)?;
    }
    Ok(())
}
