//! What a program claims of all recordings, beside what its run does.

ghost use Rattle.std.specs.Prelude.{List};
ghost use Rattle.rh_record.specs.declared.line.Line.{Line};

/// What is claimed of every recording. It stands on laws above this crate, so that a program that
/// claims nothing is proved without them; no value is made of it.
pub trait Claims {
    /// What is claimed of these lines.
    ghost claim: { List Line → Type 0 };

    /// Does nothing: its contract is that the claim holds.
    fn hold()
        ensures { (lines : List Line) → claim lines };
}

/// Claims nothing.
pub struct Plain;

impl Claims for Plain {
    ghost claim = { λ _. Unit {0} };

    fn hold() {}
}
