//! Heads, of `in`, `out` or `response`: `read`, and `say`, the text of its fault; `each`, read
//! whole, by each front and with bytes behind; `judge`; `blank`, where the first blank line ends;
//! `write`. Of hosts: `host`, the text of its fault.

use crate::numbers::{long_of, text_of};
use crate::spelling::{Around, say, tell, tell_characters};
use rh_http::{
    ClientConfig, Got, HeadEnd, Host, HttpFault, Refusal, Request, Response, judge_request,
    judge_response, read_request, read_response, write_echo, write_in_request, write_out_request,
    write_out_response, write_refusal,
};
use rh_rts::{Cookie, NoRoom};
use std::alloc::{AllocError, Global};

/// The most bytes of a head that may be judged.
const GREATEST_HEAD: usize = 16_384;

/// What is read from a head.
#[derive(Clone, Copy, PartialEq, Eq)]
enum Value {
    Request(Request),
    Response(Response),
}

/// What a head is to be.
#[derive(Clone, Copy)]
enum Kind {
    In,
    Out,
    Response,
}

fn kind_of(word: &str) -> Kind {
    match word {
        "in" => Kind::In,
        "out" => Kind::Out,
        _ => Kind::Response,
    }
}

fn read_as_request(bytes: &[u8], inbound: bool) -> Got<Value> {
    match read_request(bytes, inbound) {
        Got::Need => Got::Need,
        Got::Head { value, len } => Got::Head {
            value: Value::Request(value),
            len,
        },
        Got::Fault { place, fault } => Got::Fault { place, fault },
    }
}

fn read_as_response(bytes: &[u8]) -> Got<Value> {
    match read_response(bytes) {
        Got::Need => Got::Need,
        Got::Head { value, len } => Got::Head {
            value: Value::Response(value),
            len,
        },
        Got::Fault { place, fault } => Got::Fault { place, fault },
    }
}

fn read(kind: Kind, bytes: &[u8]) -> Got<Value> {
    match kind {
        Kind::In => read_as_request(bytes, true),
        Kind::Out => read_as_request(bytes, false),
        Kind::Response => read_as_response(bytes),
    }
}

/// Appends the host, the port and the length, or the status and the length.
fn tell_value(value: Value, out: &mut String) -> Result<(), AllocError> {
    match value {
        Value::Request(request) => {
            tell_characters(request.host.text(), out)?;
            out.push_str(" ")?;
            tell(request.port, out)?;
            out.push_str(" ")?;
            tell(request.length, out)
        }
        Value::Response(response) => {
            tell(response.status, out)?;
            out.push_str(" ")?;
            tell(response.length, out)
        }
    }
}

fn tell_got(got: Got<Value>, out: &mut String) -> Result<(), AllocError> {
    match got {
        Got::Need => out.push_str("need"),
        Got::Head { value, len } => {
            tell_value(value, out)?;
            out.push_str(" of ")?;
            tell(len, out)
        }
        Got::Fault { place, fault } => {
            out.push_str(fault.name())?;
            out.push_str(" at ")?;
            tell(place, out)
        }
    }
}

/// Appends the text of the fault.
fn say_fault(got: Got<Value>, out: &mut String) -> Result<(), AllocError> {
    match got {
        Got::Fault { fault, .. } => say(fault, out),
        _ => out.push_str("no fault"),
    }
}

/// Appends the text of what is wrong with a host.
fn say_host(name: &[u8], out: &mut String) -> Result<(), AllocError> {
    match Host::new(name) {
        Ok(_) => out.push_str("a host"),
        Err(fault) => say(fault, out),
    }
}

/// Appends the first front for which more bytes aren't needed, if there is one.
fn tell_fronts(kind: Kind, bytes: &[u8], out: &mut String) -> Result<(), AllocError> {
    for cut in 0..bytes.len() {
        if read(kind, &bytes[..cut]) != Got::Need {
            out.push_str("; front ")?;
            return tell(cut, out);
        }
    }
    out.push_str("; no front")
}

/// Appends whether bytes behind the head change nothing.
fn tell_behind(
    alloc: Global,
    kind: Kind,
    bytes: &[u8],
    out: &mut String,
) -> Result<(), AllocError> {
    let mut more = Vec::new(alloc);
    more.extend_from_slice(bytes)?;
    more.extend_from_slice(b"\x05\x00\r\n\r\n")?;
    if read(kind, &more) == read(kind, bytes) {
        out.push_str("; more is alike")
    } else {
        out.push_str("; more is other")
    }
}

/// Appends what is read of the head, of its fronts, and with bytes behind it.
fn tell_each(alloc: Global, kind: Kind, bytes: &[u8], out: &mut String) -> Result<(), AllocError> {
    tell_got(read(kind, bytes), out)?;
    tell_fronts(kind, bytes, out)?;
    tell_behind(alloc, kind, bytes, out)
}

fn tell_verdict(verdict: Result<Value, HttpFault>, out: &mut String) -> Result<(), AllocError> {
    match verdict {
        Ok(value) => tell_value(value, out),
        Err(fault) => out.push_str(fault.name()),
    }
}

/// Appends the verdict on a text.
fn tell_judged(kind: Kind, bytes: &[u8], out: &mut String) -> Result<(), AllocError> {
    if bytes.len() > GREATEST_HEAD {
        return out.push_str("over");
    }
    let verdict = match kind {
        Kind::In => judge_request(bytes, true).map(Value::Request),
        Kind::Out => judge_request(bytes, false).map(Value::Request),
        Kind::Response => judge_response(bytes).map(Value::Response),
    };
    tell_verdict(verdict, out)
}

/// Appends the verdicts on the text, on it with one byte less, and with one more.
fn judged(alloc: Global, kind: Kind, bytes: &[u8], out: &mut String) -> Result<(), AllocError> {
    tell_judged(kind, bytes, out)?;
    out.push_str("; less ")?;
    let (front, _) = bytes.split_at(bytes.len().saturating_sub(1));
    tell_judged(kind, front, out)?;
    out.push_str("; more ")?;
    let mut more = Vec::new(alloc);
    more.extend_from_slice(bytes)?;
    more.push(b'\n')?;
    tell_judged(kind, &more, out)
}

/// Where the head ends that was searched in two pieces; `None` also where it ends in the first.
fn end_of_two(bytes: &[u8], cut: usize) -> Option<Option<usize>> {
    let (front, _) = bytes.split_at(cut.min(bytes.len()));
    let mut end = HeadEnd::new();
    match end.find(front) {
        Some(_) => None,
        None => Some(end.find(bytes)),
    }
}

/// Appends where the first blank line ends, and the first cut that changes that, if there is one.
fn blank(bytes: &[u8], out: &mut String) -> Result<(), AllocError> {
    let whole = HeadEnd::new().find(bytes);
    tell(whole, out)?;
    for cut in 0..bytes.len() {
        if end_of_two(bytes, cut).is_some_and(|end| end != whole) {
            out.push_str("; cut ")?;
            return tell(cut, out);
        }
    }
    out.push_str("; no cut")
}

fn host(name: &[u8]) -> Result<Host, AllocError> {
    Host::new(name).map_err(|_| AllocError)
}

fn config() -> Result<ClientConfig, AllocError> {
    Ok(ClientConfig {
        connection: Cookie([1; 16]),
        group: Cookie([2; 16]),
        window: 65_536,
        lifetime: 1_073_741_824,
        keepalive: 300_000,
        host: host(b"server")?,
        port: 593,
        proxy_host: host(b"proxy")?,
    })
}

/// Writes the head that the text asks for.
fn write(text: &[u8], room: &mut [u8]) -> Result<Result<usize, NoRoom>, AllocError> {
    let (word, rest) = text_of(text);
    let (length, _) = long_of(rest);
    match word {
        "in" => Ok(write_in_request(&config()?, room)),
        "out" => Ok(write_out_request(&config()?, length, room)),
        "response" => Ok(write_out_response(length, room)),
        "echo" => Ok(write_echo(room)),
        "bad" => Ok(write_refusal(Refusal::Bad, room)),
        "missing" => Ok(write_refusal(Refusal::Missing, room)),
        _ => Ok(write_refusal(Refusal::Unavailable, room)),
    }
}

/// Appends what comes of writing into a room of this size less one.
fn tell_short(text: &[u8], len: usize, out: &mut String) -> Result<(), AllocError> {
    let mut room = [7; 256];
    let short = len.saturating_sub(1).min(256);
    tell(write(text, &mut room[..short])?, out)?;
    if room.iter().any(|byte| *byte != 7) {
        out.push_str(" and bytes")?;
    }
    out.push_str("; ")
}

/// Appends what is written, into a room one byte too short and into a large one.
fn written(text: &[u8], out: &mut String) -> Result<(), AllocError> {
    let mut room = [7; 256];
    let answer = write(text, &mut room)?;
    let len = answer.unwrap_or(0).min(256);
    tell(answer, out)?;
    out.push_str("; ")?;
    tell_short(text, len, out)?;
    let (front, behind) = room.split_at(len);
    if behind.iter().any(|byte| *byte != 7) {
        out.push_str("more; ")?;
    }
    tell_characters(front, out)
}

/// Answers a call.
pub fn call(
    alloc: Global,
    around: &Around,
    call: &str,
    text: &[u8],
    out: &mut String,
) -> Result<(), AllocError> {
    let (word, spelled) = text_of(text);
    match call {
        "read" => tell_got(read(kind_of(word), &around.bytes(alloc, spelled)?), out),
        "each" => tell_each(alloc, kind_of(word), &around.bytes(alloc, spelled)?, out),
        "say" => say_fault(read(kind_of(word), &around.bytes(alloc, spelled)?), out),
        "judge" => judged(alloc, kind_of(word), &around.bytes(alloc, spelled)?, out),
        "blank" => blank(&around.bytes(alloc, text)?, out),
        "host" => say_host(&around.bytes(alloc, text)?, out),
        "write" => written(text, out),
        _ => out.push_str("?"),
    }
}
