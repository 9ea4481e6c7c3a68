//! The texts of answers.

use rh_line::{Cause, Dir, GiveFault, Leg, LegKind, RecycleFault, Side, State};
use rh_pdu::{HeadFault, PduFault};
use rh_record::answer::{Answer, TakeAnswer, Who};
use rh_record::report::Report;
use rh_record::writing::{write_answer, write_report};
use rh_text::{Bytes, read_hex};
use std::process::Abort;
use std::test::Fail;

const CO1: Leg = Leg {
    kind: LegKind::ClientOut,
    number: 1,
};

const OS2: Leg = Leg {
    kind: LegKind::OutServer,
    number: 2,
};

const CI2: Leg = Leg {
    kind: LegKind::ClientIn,
    number: 2,
};

const IS1: Leg = Leg {
    kind: LegKind::InServer,
    number: 1,
};

const BROKEN: Cause = Cause::LegBroken { leg: IS1 };

// An answer is written so, behind what was there.
fn says(rt: HostRuntime, answer: Answer, text: &'static str) -> Result<(), Fail> {
    let mut out = String::from_str(rt.alloc(), "before\n")?;
    write_answer(&answer, &mut out)?;
    out.push_str("after")?;
    let line = out
        .as_str()
        .strip_prefix("before\n")
        .and_then(|rest| rest.strip_suffix("\nafter"));
    if line == Some(text) {
        Ok(())
    } else {
        Err(text.into())
    }
}

// Bytes that hex spells.
fn bytes(rt: &HostRuntime, hex: &str) -> Result<Bytes, Fail> {
    match read_hex(rt.alloc(), hex.as_bytes(), 100)? {
        Some(bytes) => Ok(bytes),
        None => Ok(Bytes::new(Vec::new(rt.alloc()))),
    }
}

// An answer to a give, and its line.
static GIVES: [(Result<u16, GiveFault>, &str); 8] = [
    (Ok(24), "give c ok 24"),
    (
        Err(GiveFault::Full {
            held: 262_144,
            len: 8_192,
        }),
        "give c full 262144 8192",
    ),
    (Err(GiveFault::BadPdu(PduFault::Cut(1))), "give c bad Cut 1"),
    (
        Err(GiveFault::BadPdu(PduFault::Head(HeadFault::TooLong(8_193)))),
        "give c bad TooLong 8193",
    ),
    (Err(GiveFault::BadPdu(PduFault::Rts)), "give c bad Rts"),
    (
        Err(GiveFault::BadPdu(PduFault::Length { frag: 24, len: 25 })),
        "give c bad Length 24 25",
    ),
    (Err(GiveFault::Closing), "give c closing"),
    (
        Err(GiveFault::Closed(BROKEN)),
        "give c closed 1 LegBroken is1",
    ),
];

#[test]
fn each_answer_to_a_give_is_written(rt: HostRuntime) -> Result<(), Fail> {
    let side = Side::Client;
    for (answer, text) in &GIVES {
        let answer = Answer::Give {
            side,
            answer: *answer,
        };
        says(rt, answer, text)?;
    }
    Ok(())
}

// The answer to a take is written so.
fn is_take(
    rt: HostRuntime,
    side: Side,
    answer: TakeAnswer,
    text: &'static str,
) -> Result<(), Fail> {
    says(rt, Answer::Take { side, answer }, text)
}

#[test]
fn each_answer_to_a_take_is_written(rt: HostRuntime) -> Result<(), Fail> {
    let (client, server) = (Side::Client, Side::Server);
    let taken = TakeAnswer::Pdu(bytes(&rt, "05A0")?);
    is_take(rt, server, taken, "take s pdu 05a0")?;
    is_take(rt, server, TakeAnswer::Empty, "take s empty")?;
    is_take(rt, client, TakeAnswer::Ended, "take c ended")?;
    let closed = TakeAnswer::Closed(BROKEN);
    is_take(rt, server, closed, "take s closed 1 LegBroken is1")?;
    Ok(())
}

// A leg, a direction, the bytes that were drawn, and the line.
static SENDS: [(Option<Leg>, Dir, Option<u32>, &str); 5] = [
    (None, Dir::U, Some(24), "send cs u 24"),
    (None, Dir::U, None, "send cs u no"),
    (Some(CI2), Dir::U, Some(8_000), "send ci2 u 8000"),
    (Some(IS1), Dir::D, Some(0), "send is1 d 0"),
    (Some(IS1), Dir::U, None, "send is1 u no"),
];

#[test]
fn each_answer_to_a_send_is_written(rt: HostRuntime) -> Result<(), Fail> {
    for (leg, dir, count, text) in &SENDS {
        let answer = Answer::Send {
            leg: *leg,
            dir: *dir,
            count: *count,
        };
        says(rt, answer, text)?;
    }
    Ok(())
}

// A leg, a direction, the hex of the bytes that were fed, and the line.
static MOVES: [(Option<Leg>, Dir, Option<&str>, &str); 6] = [
    (None, Dir::U, Some("eeff0011"), "move cs u 4 eeff0011"),
    (None, Dir::U, Some(""), "move cs u 0"),
    (None, Dir::D, None, "move cs d no"),
    (
        Some(IS1),
        Dir::D,
        Some("050014031000000018000000000000000000010007000000"),
        "move is1 d 24 050014031000000018000000000000000000010007000000",
    ),
    (Some(CI2), Dir::U, Some(""), "move ci2 u 0"),
    (Some(CI2), Dir::D, None, "move ci2 d no"),
];

// The answer to a move.
fn moved(rt: &HostRuntime, leg: Option<Leg>, dir: Dir, hex: Option<&str>) -> Result<Answer, Fail> {
    let bytes = match hex {
        Some(hex) => Some(bytes(rt, hex)?),
        None => None,
    };
    Ok(Answer::Move { leg, dir, bytes })
}

#[test]
fn each_answer_to_a_move_is_written(rt: HostRuntime) -> Result<(), Fail> {
    for (leg, dir, hex, text) in &MOVES {
        let answer = moved(&rt, *leg, *dir, *hex)?;
        says(rt, answer, text)?;
    }
    Ok(())
}

#[test]
fn each_answer_of_a_leg_is_written(rt: HostRuntime) -> Result<(), Fail> {
    let (ok, no) = (true, false);
    says(rt, Answer::OpenLeg { leg: CO1, ok }, "open co1 ok")?;
    says(rt, Answer::OpenLeg { leg: OS2, ok: no }, "open os2 no")?;
    says(rt, Answer::OpenSame { leg: CI2, ok }, "open ci2 same ok")?;
    let same = Answer::OpenSame { leg: CI2, ok: no };
    says(rt, same, "open ci2 same no")?;
    says(rt, Answer::BreakLeg { leg: IS1, ok }, "break is1 ok")?;
    says(rt, Answer::BreakLeg { leg: IS1, ok: no }, "break is1 no")?;
    let (leg, dir) = (IS1, Dir::U);
    says(rt, Answer::EndLeg { leg, dir, ok }, "end is1 u ok")?;
    let (leg, dir) = (CI2, Dir::D);
    says(rt, Answer::EndLeg { leg, dir, ok: no }, "end ci2 d no")?;
    Ok(())
}

#[test]
fn each_answer_of_a_moment_is_written(rt: HostRuntime) -> Result<(), Fail> {
    let later = Answer::Tick {
        now: 120_000,
        ok: true,
    };
    says(rt, later, "tick 120000 ok")?;
    says(rt, Answer::Tick { now: 5, ok: false }, "tick 5 no")?;
    says(rt, Answer::Quiet(4), "quiet 4")?;
    says(rt, Answer::Spent(1), "spent 1")?;
    says(rt, Answer::Close { side: Side::Client }, "close c ok")?;
    Ok(())
}

// What a recycling of the IN channel answers, and the line.
static IN_RECYCLES: [(Result<(), RecycleFault>, &str); 4] = [
    (Ok(()), "recycle in ok"),
    (
        Err(RecycleFault::Busy { under_way: CI2 }),
        "recycle in busy ci2",
    ),
    (Err(RecycleFault::NotOpen), "recycle in notopen"),
    (Err(RecycleFault::Last), "recycle in last"),
];

#[test]
fn each_answer_to_a_recycling_is_written(rt: HostRuntime) -> Result<(), Fail> {
    for (answer, text) in &IN_RECYCLES {
        says(rt, Answer::RecycleIn(*answer), text)?;
    }
    let busy = Err(RecycleFault::Busy { under_way: OS2 });
    says(rt, Answer::RecycleOut(Ok(())), "recycle out ok")?;
    says(rt, Answer::RecycleOut(busy), "recycle out busy os2")?;
    Ok(())
}

const SILENT: Cause = Cause::Silent {
    leg: CO1,
    since: 0,
    now: 120_000,
};

const REFUSED: Cause = Cause::HttpRefused {
    leg: CI2,
    status: 503,
};

const ENDED: Cause = Cause::LegEnded {
    leg: IS1,
    partial: 0,
};

// A node, why it closed, and the line.
static CLOSED: [(Who, Cause, &str); 4] = [
    (Who::Client, SILENT, "closed c 11 Silent co1 0 120000"),
    (Who::Server, ENDED, "closed s 2 LegEnded is1 0"),
    (Who::In(1), BROKEN, "closed i1 1 LegBroken is1"),
    (Who::Out(12), REFUSED, "closed o12 9 HttpRefused ci2 503"),
];

#[test]
fn each_node_that_closed_is_written(rt: HostRuntime) -> Result<(), Fail> {
    for (who, cause, text) in &CLOSED {
        let answer = Answer::NodeClosed {
            who: *who,
            cause: *cause,
        };
        says(rt, answer, text)?;
    }
    Ok(())
}

// The last lines of an end.
fn last(side: Side, state: State, inbound: u32, outbound: u32) -> Answer {
    Answer::Last {
        side,
        state,
        inbound,
        outbound,
    }
}

#[test]
fn a_report_is_written_line_by_line(rt: HostRuntime) -> Result<(), Fail> {
    let alloc = rt.alloc();
    let mut report = Report::new(alloc);
    let closed = State::Closed(BROKEN);
    report.push(Answer::BreakLeg { leg: IS1, ok: true })?;
    report.push(Answer::NodeClosed {
        who: Who::Server,
        cause: BROKEN,
    })?;
    report.push(Answer::Up { given: 5, taken: 0 })?;
    report.push(Answer::Down { given: 0, taken: 1 })?;
    report.push(last(Side::Client, State::Open, 2, 1))?;
    report.push(last(Side::Server, closed, 2, 1))?;
    report.push(last(Side::Client, State::Opening, 1, 3))?;
    report.push(last(Side::Server, State::Ended, 4, 1))?;
    let mut out = String::new(alloc);
    write_report(&report, &mut out)?;
    let wanted = "break is1 ok
closed s 1 LegBroken is1
up given 5 taken 0
down given 0 taken 1
client open in 2 out 1
server closed 1 LegBroken is1
client opening in 1 out 3
server ended in 4 out 1
";
    assert_eq!(rt; out.as_str(), wanted);
    report.clear();
    assert!(rt; report.answers().is_empty());
    Ok(())
}
