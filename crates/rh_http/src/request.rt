//! Reads the requests that open channels (MS-RPCH 2.1.2).

ghost use Rattle.std.specs.Prelude.{◌≡◌, ◌≤◌, ℕ, List, All, length, map};
ghost use Rattle.httparse.specs.Spans.{IsHeaderWithin, IsWithin, header_bytes, span_bytes};
ghost use Rattle.rh_http.specs.Requests.{method_of, Passes, JudgesRequest};
ghost use Rattle.rh_http.specs.Reading.{IsAnswer, IsAlone};

use crate::fault::HttpFault;
use crate::got::{GREATEST_FIELDS, Got};
use crate::host::Host;
use crate::lengths::request_length;
use crate::reading::{Judge, answer};
use crate::target::{has_path, read_target};
use httparse::Status;
use httparse::spans::{EMPTY_HEADER_SPAN, HeaderSpan, RequestSpans, parse_request};

/// A request for a channel, or an echo request.
#[derive(Clone, Copy, Debug, PartialEq, Eq)]
pub struct Request {
    /// The server.
    pub host: Host,
    /// The port of the server: 1 to 65,535.
    pub port: u16,
    /// The Content-Length, in bytes. At most 16 is an echo request; else it is the lifetime of an
    /// IN channel, or 76 or 120 for an OUT channel.
    pub length: u32,
}

/// The method for an IN channel (true), or an OUT channel.
pub(crate) fn method(inbound: bool) -> &'static [u8]
    ensures { result.now ≡ method_of inbound }
{
    if inbound {
        b"RPC_IN_DATA"
    } else {
        b"RPC_OUT_DATA"
    }
}

/// Tries the steps on the parts of a head.
fn judge_parts(
    head: &[u8],
    spans: &RequestSpans,
    fields: &[HeaderSpan],
    inbound: bool,
) -> Result<Request, HttpFault>
    requires method { IsWithin (length head.now) spans.now.method }
    requires target { IsWithin (length head.now) spans.now.path }
    requires fields { All (IsHeaderWithin (length head.now)) fields.now }
    ensures { Passes inbound (record {
      method = span_bytes head.now spans.now.method;
      target = span_bytes head.now spans.now.path;
      fields = map (header_bytes head.now) fields.now;
    }) result }
{
    if spans.method.of(head) != method(inbound) {
        return Err(HttpFault::Method);
    }
    let target = spans.path.of(head);
    if !has_path(target) {
        return Err(HttpFault::Path);
    }
    let Some((host, port)) = read_target(target) else {
        return Err(HttpFault::Target);
    };
    let Some(length) = request_length(head, fields, inbound) else {
        return Err(HttpFault::Length);
    };
    Ok(Request { host, port, length })
}

/// Judges requests for IN channels (true), or for OUT channels.
#[derive(Drop)]
struct Requests {
    inbound: bool,
}

impl Judge for Requests {
    type Head = Request;

    ghost judges = { λ requests text result. JudgesRequest requests.inbound text result };

    fn judge(&self, text: &[u8]) -> Result<Request, HttpFault> {
        let mut headers = [EMPTY_HEADER_SPAN; GREATEST_FIELDS];
        match parse_request(text, &mut headers) {
            Ok(Status::Complete(spans)) if spans.len == text.len() => {
                let (fields, _) = headers.split_at(spans.headers);
                judge_parts(text, &spans, fields, self.inbound)
            }
            _ => Err(HttpFault::Syntax),
        }
    }
}

/// Reads the request at the front of the bytes: for an IN channel where `inbound` is true, else for
/// an OUT channel.
///
/// A head is judged when its blank line is there: its syntax, then its method, its path, its target
/// and its length. Where bytes come in pieces, `HeadEnd` tells when to call this.
pub fn read_request(bytes: &[u8], inbound: bool) -> Got<Request>
    ensures answer { IsAnswer (JudgesRequest inbound) bytes.now result }
    ensures alone { IsAlone (JudgesRequest inbound) bytes.now result }
{
    answer(&Requests { inbound }, bytes)
}
