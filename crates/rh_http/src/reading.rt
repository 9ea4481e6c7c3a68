//! What is told of bytes at whose front a head is to be.

ghost use Rattle.std.specs.Prelude.{List, ℕ, Err};
ghost use Rattle.std.specs.declared.result.Result.{Result};
ghost use Rattle.rh_http.specs.declared.fault.HttpFault.{HttpFault};
ghost use Rattle.rh_http.specs.Extents.{IsExtent};
ghost use Rattle.rh_http.specs.Reading.{IsAnswer};

use crate::end::HeadEnd;
use crate::fault::HttpFault;
use crate::got::{Extent, GREATEST_HEAD, Got};

/// What judges the heads of one kind of messages.
pub(crate) trait Judge {
    type Head;

    /// The verdict on a text.
    ghost judges: { Self → List ℕ → Result Self.Head HttpFault → Type 0 };

    /// Judges the bytes up to and with a blank line.
    fn judge(&self, text: &[u8]) -> Result<Self::Head, HttpFault>
        ensures verdict { judges self.now text.now result }
        ensures ends { ¬ judges self.now text.now (Err HttpFault.TooLong) };
}

/// Finds the end of the head at the front of the bytes, and judges the head.
pub(crate) fn answer<J: Judge>(judge: &J, bytes: &[u8]) -> Got<J::Head>
    ensures { IsAnswer (J.judges judge.now) bytes.now result }
{
    match extent_of(bytes) {
        Extent::Open => Got::Need,
        Extent::Over => Got::Fault {
            place: GREATEST_HEAD as u32,
            fault: HttpFault::TooLong,
        },
        Extent::Ends(len) => {
            let (text, _) = bytes.split_at(len);
            match judge.judge(text) {
                Ok(value) => Got::Head { value, len },
                Err(fault) => Got::Fault {
                    place: len as u32,
                    fault,
                },
            }
        }
    }
}

/// Where the head at the front of the bytes ends.
fn extent_of(bytes: &[u8]) -> Extent
    ensures { IsExtent bytes.now result }
{
    let (front, _) = bytes.split_at(GREATEST_HEAD.min(bytes.len()));
    match HeadEnd::new().find(front) {
        Some(len) => Extent::Ends(len),
        None if bytes.len() < GREATEST_HEAD => Extent::Open,
        None => Extent::Over,
    }
}
