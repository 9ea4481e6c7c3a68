//! The words that read nothing write a text whole.

ghost use Rattle.std.specs.Prelude.{◌≡◌, ◌≢◌, IfOk, string_bytes};
ghost use Rattle.rh_made.specs.Making.{IsCount};
ghost use Rattle.rh_made.specs.Texts.{summary_text};
ghost use Rattle.rh_generate.specs.Summaries.{summary};
ghost use Rattle.rh_words.specs.Forms.{Tells};

use crate::status::Status;
use rh_generate::make;
use rh_io::{Sink, SinkFailed, write_whole};
use rh_made::{MakeCount, write_summary};
use std::alloc::{AllocError, Global};

/// Generates a recording of so many PDUs, runs it, and writes what its report comes to.
pub fn tell_summary<W: Sink>(alloc: Global, count: u32, output: &mut W) -> Status
    requires { IsCount count }
    ensures made { result ≢ Status.NoMemory → Tells (summary_text (summary count)) result
        (W.written output.old) (W.written output.new)
        (W.faults output.old) (W.faults output.new) (W.takes output.old) }
    ensures no_memory { result ≡ Status.NoMemory → output.new ≡ output.old }
{
    match summary_of(alloc, count) {
        Ok(text) => tell(text.as_str(), output),
        Err(AllocError) => Status::NoMemory,
    }
}

/// The text of what a generated recording of so many PDUs comes to.
fn summary_of(alloc: Global, count: u32) -> Result<String, AllocError>
    requires { IsCount count }
    ensures { IfOk result (λ text. string_bytes text ≡ summary_text (summary count)) }
{
    let Some(count) = MakeCount::new(count) else {
        unreachable!()
    };
    let mut text = String::new(alloc);
    write_summary(&make(alloc, count)?, &mut text)?;
    Ok(text)
}

/// Writes a text whole.
pub fn tell<W: Sink>(text: &str, output: &mut W) -> Status
    ensures { Tells text.now result (W.written output.old) (W.written output.new)
        (W.faults output.old) (W.faults output.new) (W.takes output.old) }
{
    match write_whole(output, text.as_bytes()) {
        Ok(()) => Status::Done,
        Err(SinkFailed) => Status::WriteFault,
    }
}
