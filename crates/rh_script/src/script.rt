//! The grammar of scripts.

use crate::reading::is_step;
use crate::step::Step;
use rh_text::Grammar;

/// The grammar of scripts: any line may stand anywhere.
#[derive(Clone, Copy)]
pub struct Script;

impl Grammar for Script {
    ghost use Rattle.rh_script.specs.Scripts.{script};
    ghost use Rattle.rh_script.specs.Readings.{one_step_at, no_empty};

    type Place = ();

    type Line = Step;

    ghost rules = { script };

    fn first_place() {}

    fn may_end(_: ()) -> bool {
        true
    }

    /// Decodes nothing, and takes no memory.
    fn judge_line(text: &[u8], _: ()) -> Option<()> {
        if is_step(text) { Some(()) } else { None }
    }

    ghost one = { one_step_at };

    ghost some = { no_empty };
}
