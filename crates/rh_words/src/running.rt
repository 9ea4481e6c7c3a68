//! The top call.

ghost use Rattle.std.specs.Prelude.{◌≡◌, ℕ, List};
ghost use Rattle.rh_record.specs.declared.line.Line.{Line};
ghost use Rattle.rh_words.specs.declared.form.Form.{Form};
ghost use Rattle.rh_words.specs.Forms.{IsForm, Ran, outside};

use crate::capture::Capture;
use crate::claims::Claims;
use crate::form::{Form, form_of};
use crate::help::HELP;
use crate::play::Play;
use crate::replay::Replay;
use crate::status::Status;
use crate::story::{HexStoryWord, StoryWord};
use crate::telling::{tell, tell_summary};
use rh_capture::RolesRecording;
use rh_io::{Sink, Source};
use rh_name::Names;
use rh_packet_words::{Name, Show, answer_audit};
use rh_record::Recording;
use rh_script::Script;
use rh_show::Packets;
use rh_word::answer;
use std::alloc::Global;

/// What `--version` tells.
pub const VERSION: &str = "rh_cli 0.1.0\n";

/// Does what the words say, from the input to the output.
///
/// The words are those behind the program's own name. The one word `replay` reads a recording and
/// writes its report; `story` reads one and tells it to people, and `story hex` tells its bytes too;
/// `show` reads lines of hex, one packet each, and writes one line for each; `name` reads the same
/// lines, and writes what each packet is called; `play` reads a script and writes what one role
/// answers to its lines; `capture` reads a recording of roles and writes what its run moved on the
/// legs; `audit` reads such lines and writes whether PDUs were carried in order; `make` with a
/// number from 1 to 10,000 generates a recording of roles of so many PDUs and writes what its report
/// comes to.
/// `--help` and `--version` alone write a text. These three read nothing. Other words are `Usage`.
///
/// Of every recording, whatever the words are, what `C` claims holds.
pub fn run<C: Claims, R: Source, W: Sink>(
    alloc: Global,
    words: &[String],
    input: &mut R,
    output: &mut W,
) -> Status
    ensures usage { (result ≡ Status.Usage → (form : Form) → ¬ IsForm form words.now)
        × (((form : Form) → ¬ IsForm form words.now) → result ≡ Status.Usage) }
    ensures unused { result ≡ Status.Usage → (input.new ≡ input.old) × (output.new ≡ output.old) }
    ensures unread { ((count : ℕ) → IsForm (Form.Make count) words.now → input.new ≡ input.old)
        × (IsForm Form.Help words.now → input.new ≡ input.old)
        × (IsForm Form.Version words.now → input.new ≡ input.old) }
    ensures ran { let seen = outside R.left R.taken R.faults R.ends W.written W.faults W.takes in
        (form : Form) → IsForm form words.now
        → Ran HELP.now VERSION.now (R.unfailing input.old) form result
        (seen input.old output.old) (seen input.new output.new) }
    ensures claims { (lines : List Line) → C.claim lines }
{
    C::hold();
    match form_of(words) {
        Some(Form::Replay) => Status::from(answer::<Recording, Replay, R, W>(alloc, input, output)),
        Some(Form::Story) => {
            Status::from(answer::<Recording, StoryWord, R, W>(alloc, input, output))
        }
        Some(Form::HexStory) => {
            Status::from(answer::<Recording, HexStoryWord, R, W>(alloc, input, output))
        }
        Some(Form::Show) => Status::from(answer::<Packets, Show, R, W>(alloc, input, output)),
        Some(Form::Name) => Status::from(answer::<Names, Name, R, W>(alloc, input, output)),
        Some(Form::Play) => Status::from(answer::<Script, Play, R, W>(alloc, input, output)),
        Some(Form::Capture) => {
            Status::from(answer::<RolesRecording, Capture, R, W>(alloc, input, output))
        }
        Some(Form::Audit) => Status::from(answer_audit::<R, W>(alloc, input, output)),
        Some(Form::Make(count)) => tell_summary(alloc, count, output),
        Some(Form::Help) => tell(HELP, output),
        Some(Form::Version) => tell(VERSION, output),
        None => Status::Usage,
    }
}
