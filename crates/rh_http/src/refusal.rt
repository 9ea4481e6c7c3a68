//! How a proxy refuses a request.

use crate::fault::HttpFault;

/// Why a proxy refuses a request (the choice of statuses is the profile's).
#[derive(Clone, Copy, Debug, PartialEq, Eq)]
pub enum Refusal {
    /// `BAD_REQUEST`: the head is at fault elsewhere than in its path.
    Bad,
    /// `NOT_FOUND`: the path is not that of a proxy.
    Missing,
    /// `SERVICE_UNAVAILABLE`: the server could not be connected.
    Unavailable,
}

impl From<HttpFault> for Refusal {
    ghost use Rattle.std.specs.Prelude.{◌≡◌};
    ghost use Rattle.rh_http.specs.Refusals.{refusal_of};

    ghost from_gives = { λ fault refusal. refusal ≡ refusal_of fault };

    fn from(fault: HttpFault) -> Refusal {
        match fault {
            HttpFault::Path => Refusal::Missing,
            HttpFault::TooLong
            | HttpFault::Syntax
            | HttpFault::Method
            | HttpFault::Target
            | HttpFault::Length => Refusal::Bad,
        }
    }
}
