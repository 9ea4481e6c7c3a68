//! Heads that are all of a text.

ghost use Rattle.std.specs.Prelude.{◌≡◌};
ghost use Rattle.rh_http.specs.Heads.Answers.{verdict_of};

use crate::{Got, HttpFault};

/// The verdict on a text of this many bytes, from what is told of the head at its front.
pub(crate) fn whole<T: Copy>(got: Got<T>, len_of_text: usize) -> Result<T, HttpFault>
    ensures { result ≡ verdict_of got len_of_text }
{
    match got {
        Got::Head { value, len } if len == len_of_text => Ok(value),
        Got::Fault { place, fault } if place as usize == len_of_text => Err(fault),
        Got::Need | Got::Head { .. } | Got::Fault { .. } => Err(HttpFault::TooLong),
    }
}
