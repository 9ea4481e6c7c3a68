//! What stands at the front of a stream, before its frames.

ghost use Rattle.std.specs.Prelude.{◌≡◌, ◌≤◌, ℕ, Bool, List, IfSome, is_ok, length, take};
ghost use Rattle.rh_http.specs.Reading.{greatest_head};
ghost use Rattle.rh_http.specs.Heads.Verdicts.{request_verdict, response_verdict};
ghost use Rattle.rh_audit.specs.declared.opening.Begins.TheVariants as Begins;
ghost use Rattle.rh_audit.specs.Openings as seen;
ghost use Rattle.rh_audit.specs.Openings.{head_end};

use rh_http::got::GREATEST_HEAD;
use rh_http::{HeadEnd, judge_request, judge_response};
use rh_sig::Pipe;

/// What a server says first on a leg (profile).
const GREETING: &[u8] = b"ncacn_http/1.0";

/// With what a stream begins.
#[derive(Clone, Copy)]
pub(crate) enum Begins {
    /// A request for an IN channel where that is true, else for an OUT channel.
    Request(bool),
    Response,
    Greeting,
    /// Nothing stands before its frames.
    Frames,
}

/// What is told of the front of a stream.
#[derive(Clone, Copy)]
pub(crate) enum Opening {
    /// It is not whole.
    Waits,
    /// It is whole, and has so many bytes.
    Opens(usize),
    /// It is at fault behind so many bytes.
    Fails(usize),
}

/// With what the streams on a pipe begin.
pub(crate) fn begins_with(pipe: Pipe) -> Begins
    ensures { result ≡ seen.begins_with pipe }
{
    match pipe {
        Pipe::CiU => Begins::Request(true),
        Pipe::CoU => Begins::Request(false),
        Pipe::CoD => Begins::Response,
        Pipe::OsD => Begins::Greeting,
        Pipe::IsU | Pipe::IsD | Pipe::OsU => Begins::Frames,
    }
}

/// Where the head ends with which bytes begin, of which there are 16,384 at most.
fn end_of_head(front: &[u8]) -> Option<usize>
    requires { length front.now ≤ greatest_head }
    ensures end { result ≡ head_end front.now }
    ensures within { IfSome result (λ end. end ≤ length front.now) }
{
    match HeadEnd::new().find(front) {
        Some(end) => Some(end),
        None if front.len() == GREATEST_HEAD => Some(GREATEST_HEAD),
        None => None,
    }
}

/// Whether the text is a request with which nothing is wrong.
fn is_request(text: &[u8], inbound: bool) -> bool
    requires { length text.now ≤ greatest_head }
    ensures { result ≡ is_ok (request_verdict inbound text.now) }
{
    judge_request(text, inbound).is_ok()
}

/// Whether the text is a response with which nothing is wrong.
fn is_response(text: &[u8]) -> bool
    requires { length text.now ≤ greatest_head }
    ensures { result ≡ is_ok (response_verdict text.now) }
{
    judge_response(text).is_ok()
}

/// A request of which these are the first bytes.
fn request_opening(front: &[u8], inbound: bool) -> Opening
    requires { length front.now ≤ greatest_head }
    ensures { result ≡ seen.opening_by (Begins.Request inbound) front.now }
{
    let Some(end) = end_of_head(front) else {
        return Opening::Waits;
    };
    let (text, _) = front.split_at(end);
    if is_request(text, inbound) {
        Opening::Opens(end)
    } else {
        Opening::Fails(end)
    }
}

/// A response of which these are the first bytes.
fn response_opening(front: &[u8]) -> Opening
    requires { length front.now ≤ greatest_head }
    ensures { result ≡ seen.opening_by Begins.Response front.now }
{
    let Some(end) = end_of_head(front) else {
        return Opening::Waits;
    };
    let (text, _) = front.split_at(end);
    if is_response(text) {
        Opening::Opens(end)
    } else {
        Opening::Fails(end)
    }
}

/// A greeting of which these are the first bytes.
fn greeting_opening(front: &[u8]) -> Opening
    ensures { result ≡ seen.opening_by Begins.Greeting front.now }
{
    if front.len() < GREETING.len() {
        return Opening::Waits;
    }
    let (text, _) = front.split_at(GREETING.len());
    if text == GREETING {
        Opening::Opens(GREETING.len())
    } else {
        Opening::Fails(0)
    }
}

/// What the bytes of a stream begin with, of which these are the first 16,384, or all.
pub(crate) fn opening_of(front: &[u8], begins: Begins) -> Opening
    requires { length front.now ≤ greatest_head }
    ensures opening { (bytes : List ℕ) → front.now ≡ take greatest_head bytes
        → result ≡ seen.opening_by begins bytes }
    ensures most { seen.extent result ≤ greatest_head }
{
    match begins {
        Begins::Request(inbound) => request_opening(front, inbound),
        Begins::Response => response_opening(front),
        Begins::Greeting => greeting_opening(front),
        Begins::Frames => Opening::Opens(0),
    }
}
