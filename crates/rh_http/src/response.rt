//! Reads the responses to requests for channels (MS-RPCH 2.1.2).

ghost use Rattle.rh_http.specs.Responses.{JudgesResponse};
ghost use Rattle.rh_http.specs.Reading.{IsAnswer, IsAlone};

use crate::fault::HttpFault;
use crate::got::{GREATEST_FIELDS, Got};
use crate::lengths::response_length;
use crate::reading::{Judge, answer};
use httparse::Status;
use httparse::spans::{EMPTY_HEADER_SPAN, parse_response};

/// A response.
#[derive(Clone, Copy, Debug, PartialEq, Eq)]
pub struct Response {
    /// The status: three digits.
    pub status: u16,
    /// The Content-Length, in bytes: at most 2,147,549,184. It is 0 where the status is not 200 and
    /// the field is not there.
    pub length: u32,
}

/// Judges responses.
#[derive(Drop)]
struct Responses;

impl Judge for Responses {
    type Head = Response;

    ghost judges = { λ _ text result. JudgesResponse text result };

    fn judge(&self, text: &[u8]) -> Result<Response, HttpFault> {
        let mut headers = [EMPTY_HEADER_SPAN; GREATEST_FIELDS];
        match parse_response(text, &mut headers) {
            Ok(Status::Complete(spans)) if spans.len == text.len() => {
                let (fields, _) = headers.split_at(spans.headers);
                match response_length(text, fields, spans.code) {
                    Some(length) => Ok(Response {
                        status: spans.code,
                        length,
                    }),
                    None => Err(HttpFault::Length),
                }
            }
            _ => Err(HttpFault::Syntax),
        }
    }
}

/// Reads the response at the front of the bytes.
///
/// A head is judged when its blank line is there: its syntax, then its length. Where bytes come in
/// pieces, `HeadEnd` tells when to call this.
pub fn read_response(bytes: &[u8]) -> Got<Response>
    ensures answer { IsAnswer JudgesResponse bytes.now result }
    ensures alone { IsAlone JudgesResponse bytes.now result }
{
    answer(&Responses, bytes)
}
