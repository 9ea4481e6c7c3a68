//! The capture of a run.

ghost use Rattle.std.specs.Prelude.{◌≡◌, IfOk};
ghost use Rattle.rh_capture.specs.Captured.{captured};

use crate::pipes::pipe_of;
use crate::tags::Tags;
use rh_audit::Seen;
use rh_record::Answer;
use rh_sig::Pipe;
use rh_text::Bytes;
use std::alloc::{AllocError, Global};

/// The lines of a capture.
pub type Captured = Vec<Seen>;

/// Bytes that were moved on a leg: a line of a capture, whose bytes stand in an answer.
#[derive(Clone, Copy, Debug)]
pub struct Moved<'a> {
    /// The leg: from 1.
    pub tag: u64,
    /// There is no line of `IsD`.
    pub pipe: Pipe,
    /// At least one.
    pub bytes: &'a [u8],
}

impl<'a> Moved<'a> {
    ghost use Rattle.std.specs.Prelude.{◌≡◌, IfOk};
    ghost use Rattle.rh_capture.specs.Captured.{seen_of};

    /// The line with bytes of its own.
    ///
    /// Fails where there is no memory for them.
    pub fn to_seen(&self, alloc: Global) -> Result<Seen, AllocError>
        ensures { IfOk result (λ seen. seen ≡ seen_of self.now) }
    {
        Ok(Seen {
            tag: self.tag,
            pipe: self.pipe,
            bytes: Bytes::new(Vec::from_slice(alloc, self.bytes)?),
        })
    }
}

impl Tags {
    ghost use Rattle.std.specs.Prelude.{◌≡◌, IfOk, OnOk};
    ghost use Rattle.rh_capture.specs.Captured.{all_seen, line_of, met};

    /// The line of an answer; `None` where no bytes were moved on a pipe that a capture has.
    ///
    /// Fails where there is no memory.
    pub fn line<'a>(&mut self, answer: &'a Answer) -> Result<Option<Moved<'a>>, AllocError>
        ensures line { IfOk result (λ line. all_seen line ≡ line_of self.old answer.now) }
        ensures legs { OnOk result (self.new ≡ met self.old answer.now) }
    {
        let Answer::Move {
            leg: Some(leg),
            dir,
            bytes: Some(bytes),
        } = answer
        else {
            return Ok(None);
        };
        let Some(pipe) = pipe_of(leg.kind, *dir) else {
            return Ok(None);
        };
        let bytes = bytes.as_slice();
        if bytes.is_empty() {
            return Ok(None);
        }
        let tag = self.tag(*leg)?;
        Ok(Some(Moved { tag, pipe, bytes }))
    }
}

/// The capture of a run with this report: a line for each move of bytes on one of the pipes that a
/// capture has, in the order of the answers. The tags of the legs count from 1 in the order in
/// which each first has a line.
///
/// Fails where there is no memory.
pub fn capture(alloc: Global, report: &[Answer]) -> Result<Captured, AllocError>
    ensures { IfOk result (λ lines. lines.items ≡ captured report.now) }
{
    let mut tags = Tags::new(alloc);
    let mut lines = Vec::new(alloc);
    for answer in report {
        if let Some(line) = tags.line(answer)? {
            lines.push(line.to_seen(alloc)?)?;
        }
    }
    Ok(lines)
}
