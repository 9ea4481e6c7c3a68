//! What is answered to a line, and its text.
//!
//! Each call fails where there is no memory; a front of what was to be appended may stand in `out`
//! then, and nothing else.

ghost use Rattle.std.specs.Prelude.{◌≡◌, ◌++◌, codes, string_bytes};
ghost use Rattle.rh_text.specs.Writing.{Writes};
ghost use Rattle.rh_line.specs.Texts.{cause_text};
ghost use Rattle.rh_script.specs.Steps.{ask_word, cut_word, loss_word};
ghost use Rattle.rh_told.specs.Names.{names_among};
ghost use Rattle.rh_told.specs.Answers as seen;

use crate::names::write_names;
use crate::target::Target;
use rh_line::{Cause, Leg, State, Verdict, write_cause};
use rh_record::{Answer, write_answer};
use rh_script::{Ask, Cut, Loss, Part, Words};
use rh_server::FirstKind;
use rh_sig::Pipe;
use rh_text::{Bytes, Part as Piece, push_ascii, write_parts};
use std::alloc::AllocError;

/// What is answered to a line.
#[derive(Drop)]
pub enum Told {
    /// Nothing is written: a comment or a setting.
    Silent,
    /// No node began, or it is none that does so.
    None,
    /// The words behind `case`.
    Case(Words),
    Begun(Part),
    Asked {
        ask: Ask,
        leg: Leg,
        yes: bool,
    },
    Up {
        leg: Leg,
        yes: bool,
    },
    Fed {
        cut: Cut,
        leg: Leg,
        verdict: Verdict,
    },
    Drawn {
        leg: Leg,
        bytes: Bytes,
    },
    /// The same, and what the packets among the bytes are called on the pipe on which they were
    /// put; on any one where none is told.
    Named {
        leg: Leg,
        pipe: Option<Pipe>,
        bytes: Bytes,
    },
    Lost {
        loss: Loss,
        leg: Leg,
        verdict: Verdict,
    },
    Ticked {
        now: u64,
        verdict: Verdict,
    },
    /// What a report tells of an end: a give, a take, a close, a recycle.
    End(Answer),
    State(State),
    Channels(u32, u32),
    Target(Option<Target>),
    First(FirstKind),
}

const SPACE: Piece<'static> = Piece::Text(" ");

const END: Piece<'static> = Piece::Text("\n");

// ---- the words in front

fn ask_word(ask: Ask) -> &'static str
    ensures { result.now ≡ ask_word ask }
{
    match ask {
        Ask::Wants => "wants",
        Ask::May => "may",
        Ask::Finished => "finished",
    }
}

fn cut_word(cut: Cut) -> &'static str
    ensures { result.now ≡ cut_word cut }
{
    match cut {
        Cut::Whole => "feed",
        Cut::Each => "each",
    }
}

fn loss_word(loss: Loss) -> &'static str
    ensures { result.now ≡ loss_word loss }
{
    match loss {
        Loss::Ended => "ended",
        Loss::Broken => "broken",
    }
}

fn yes_word(yes: bool) -> &'static str
    ensures { result.now ≡ seen.yes_text yes }
{
    if yes { " yes\n" } else { " no\n" }
}

// ---- lines

/// Appends a text as it is.
fn push(text: &str, out: &mut String) -> Result<(), AllocError>
    ensures { Writes text.now result (string_bytes out.old) (string_bytes out.new) }
{
    out.push_str(text)
}

/// Appends a word, a leg and what stands behind it.
fn write_on_leg<'a>(
    word: &'a str,
    leg: Leg,
    behind: &'a str,
    out: &mut String,
) -> Result<(), AllocError>
    ensures { Writes (seen.on_leg word.now leg ++ behind.now) result
        (string_bytes out.old) (string_bytes out.new) }
{
    let letters = Piece::Text(leg.kind.letters());
    let number = Piece::Number(u64::from(leg.number));
    let (word, behind) = (Piece::Text(word), Piece::Text(behind));
    write_parts(&[word, Piece::Text(" "), letters, number, behind], out)
}

/// Appends words and a cause, and ends the line.
fn write_caused(words: &str, cause: &Cause, out: &mut String) -> Result<(), AllocError>
    ensures { Writes (words.now ++ (cause_text cause.now ++ codes "\n")) result
        (string_bytes out.old) (string_bytes out.new) }
{
    push(words, out)?;
    write_cause(cause, out)?;
    push("\n", out)
}

/// Appends what a node is behind an event, and ends the line.
fn write_verdict(verdict: &Verdict, out: &mut String) -> Result<(), AllocError>
    ensures { Writes (seen.verdict_text verdict.now) result
        (string_bytes out.old) (string_bytes out.new) }
{
    match verdict {
        Verdict::Going => push(" going\n", out),
        Verdict::Ended => push(" ended\n", out),
        Verdict::Closed(cause) => write_caused(" closed ", cause, out),
    }
}

/// Appends a word, a leg and what the node is behind the event.
fn write_event(word: &str, leg: Leg, verdict: &Verdict, out: &mut String) -> Result<(), AllocError>
    ensures { Writes (seen.on_leg word.now leg ++ seen.verdict_text verdict.now) result
        (string_bytes out.old) (string_bytes out.new) }
{
    write_on_leg(word, leg, "", out)?;
    write_verdict(verdict, out)
}

/// Appends the line of a moment.
fn write_tick(now: u64, verdict: &Verdict, out: &mut String) -> Result<(), AllocError>
    ensures { Writes (seen.tick_text now verdict.now) result
        (string_bytes out.old) (string_bytes out.new) }
{
    write_parts(&[Piece::Text("tick "), Piece::Number(now)], out)?;
    write_verdict(verdict, out)
}

/// Appends the line of bytes that were drawn.
fn write_drawn(leg: Leg, bytes: &[u8], out: &mut String) -> Result<(), AllocError>
    ensures { Writes (seen.drawn_text leg bytes.now) result
        (string_bytes out.old) (string_bytes out.new) }
{
    let (word, letters) = (Piece::Text("draw "), Piece::Text(leg.kind.letters()));
    let number = Piece::Number(u64::from(leg.number));
    if bytes.is_empty() {
        return write_parts(&[word, letters, number, Piece::Text(" 0\n")], out);
    }
    let (len, hex) = (Piece::Number(bytes.len() as u64), Piece::Hex(bytes));
    write_parts(&[word, letters, number, SPACE, len, SPACE, hex, END], out)
}

/// Appends the line of bytes that were drawn, and one for each packet among them.
fn write_drawn_names(
    leg: Leg,
    pipe: Option<Pipe>,
    bytes: &[u8],
    out: &mut String,
) -> Result<(), AllocError>
    ensures { Writes (seen.drawn_text leg bytes.now ++ names_among pipe bytes.now) result
        (string_bytes out.old) (string_bytes out.new) }
{
    write_drawn(leg, bytes, out)?;
    write_names(pipe, bytes, out)
}

/// Appends the line of a case.
fn write_case(words: &Words, out: &mut String) -> Result<(), AllocError>
    ensures { Writes (seen.case_text words.now) result
        (string_bytes out.old) (string_bytes out.new) }
{
    out.push_str("case ")?;
    push_ascii(words.as_slice(), out)?;
    out.push_str("\n")
}

/// Appends the line of a node that begins.
fn write_part(part: Part, out: &mut String) -> Result<(), AllocError>
    ensures { Writes (seen.part_text part) result (string_bytes out.old) (string_bytes out.new) }
{
    match part {
        Part::Client => out.push_str("client\n"),
        Part::Server => out.push_str("server\n"),
        Part::InProxy(number) => {
            let number = Piece::Number(u64::from(number));
            write_parts(&[Piece::Text("inproxy "), number, END], out)
        }
        Part::OutProxy(number) => {
            let number = Piece::Number(u64::from(number));
            write_parts(&[Piece::Text("outproxy "), number, END], out)
        }
    }
}

/// Appends the line of a state.
fn write_state(state: &State, out: &mut String) -> Result<(), AllocError>
    ensures { Writes (seen.state_text state.now) result
        (string_bytes out.old) (string_bytes out.new) }
{
    match state {
        State::Opening => push("state opening\n", out),
        State::Open => push("state open\n", out),
        State::Ended => push("state ended\n", out),
        State::Closed(cause) => write_caused("state closed ", cause, out),
    }
}

/// Appends the line of the channels in use.
fn write_channels(inbound: u32, outbound: u32, out: &mut String) -> Result<(), AllocError>
    ensures { Writes (seen.channels_text inbound outbound) result
        (string_bytes out.old) (string_bytes out.new) }
{
    let inbound = Piece::Number(u64::from(inbound));
    let outbound = Piece::Number(u64::from(outbound));
    let (front, middle) = (Piece::Text("channels in "), Piece::Text(" out "));
    write_parts(&[front, inbound, middle, outbound, END], out)
}

/// Appends a host and a port, and ends the line.
fn write_server(target: &Target, out: &mut String) -> Result<(), AllocError>
    ensures { Writes (seen.server_text target.now) result
        (string_bytes out.old) (string_bytes out.new) }
{
    push_ascii(target.host(), out)?;
    let port = Piece::Number(u64::from(target.port()));
    write_parts(&[SPACE, port, END], out)
}

/// Appends the line of a target.
fn write_target(target: &Option<Target>, out: &mut String) -> Result<(), AllocError>
    ensures { Writes (seen.target_text target.now) result
        (string_bytes out.old) (string_bytes out.new) }
{
    match target {
        None => push("target none\n", out),
        Some(target) => {
            push("target ", out)?;
            write_server(target, out)
        }
    }
}

/// The line of a kind of leg.
fn first_line(kind: FirstKind) -> &'static str
    ensures { result.now ≡ seen.first_text kind }
{
    match kind {
        FirstKind::Need => "first need\n",
        FirstKind::In => "first in\n",
        FirstKind::Out => "first out\n",
        FirstKind::Stranger => "first stranger\n",
    }
}

/// Appends the text of an answer: lines with LF at their ends, or nothing.
///
/// Fails where there is no memory; a front of the text may stand in `out` then, and nothing else.
pub fn write_told(told: &Told, out: &mut String) -> Result<(), AllocError>
    ensures { Writes (seen.told_text told.now) result (string_bytes out.old) (string_bytes out.new) }
{
    match told {
        Told::Silent => Ok(()),
        Told::None => push("none\n", out),
        Told::Case(words) => write_case(words, out),
        Told::Begun(part) => write_part(*part, out),
        Told::Asked { ask, leg, yes } => write_on_leg(ask_word(*ask), *leg, yes_word(*yes), out),
        Told::Up { leg, yes } => write_on_leg("up", *leg, yes_word(*yes), out),
        Told::Fed { cut, leg, verdict } => write_event(cut_word(*cut), *leg, verdict, out),
        Told::Drawn { leg, bytes } => write_drawn(*leg, bytes.as_slice(), out),
        Told::Named { leg, pipe, bytes } => write_drawn_names(*leg, *pipe, bytes.as_slice(), out),
        Told::Lost { loss, leg, verdict } => write_event(loss_word(*loss), *leg, verdict, out),
        Told::Ticked { now, verdict } => write_tick(*now, verdict, out),
        Told::End(answer) => write_answer(answer, out),
        Told::State(state) => write_state(state, out),
        Told::Channels(inbound, outbound) => write_channels(*inbound, *outbound, out),
        Told::Target(target) => write_target(target, out),
        Told::First(kind) => push(first_line(*kind), out),
    }
}
