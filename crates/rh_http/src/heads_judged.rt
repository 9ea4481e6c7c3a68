//! The heads of HTTP messages that open channels, judged as functions of their bytes (MS-RPCH
//! 2.1.2, RFC 9112).
//!
//! `rh_http` states by relations what a text is as a head. Here it is a function of the text, so
//! that the rules of a role can be functions too.

ghost use Rattle.std.specs.Prelude.{◌≡◌, ◌≤◌, length};
ghost use Rattle.rh_http.specs.Reading.{greatest_head};
ghost use Rattle.rh_http.specs.Heads.Verdicts.{asked_of, request_verdict, response_verdict};

pub mod laws;
mod whole;

use crate::heads_judged::whole::whole;
use crate::{HttpFault, Request, Response, read_request, read_response};

/// The request that all of the text is: for an IN channel where `inbound` is true, else for an OUT
/// channel.
///
/// Fails with `TooLong` where the text, of at most 16,384 bytes, does not end with its first blank
/// line; else with the first that is wrong: its syntax, its method, its path, its target, its
/// length.
pub fn judge_request(text: &[u8], inbound: bool) -> Result<Request, HttpFault>
    requires { length text.now ≤ greatest_head }
    ensures { asked_of result ≡ request_verdict inbound text.now }
{
    whole(read_request(text, inbound), text.len())
}

/// The response that all of the text is.
///
/// Fails with `TooLong` where the text, of at most 16,384 bytes, does not end with its first blank
/// line; else with the first that is wrong: its syntax, its length.
pub fn judge_response(text: &[u8]) -> Result<Response, HttpFault>
    requires { length text.now ≤ greatest_head }
    ensures { result ≡ response_verdict text.now }
{
    whole(read_response(text), text.len())
}
