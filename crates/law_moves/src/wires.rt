//! What a leg carries from call to call. These functions do nothing: their contracts are the laws.

ghost use Rattle.std.specs.Prelude.{◌≡◌, ◌++◌, [], false, List, ℕ, Option};
ghost use Rattle.rh_sig.specs.declared.name.Pipe.{Pipe};
ghost use Rattle.rh_line.specs.declared.leg.Leg.{Leg};
ghost use Rattle.rh_shell.specs.declared.stage.Stage.TheVariants as stage;
ghost use Rattle.rh_shell.specs.NearEnds.{NearEnd};
ghost use Rattle.rh_shell.specs.Hearing.{Turn};
ghost use Rattle.rh_shell.specs.Drawing.{Drawn};
ghost use Rattle.rh_shell.specs.Shells.{same_leg};
ghost use Rattle.law_moves.specs.Moves.{Passage};
ghost use Rattle.law_moves.specs.Carrying.{IsQuiet, Puts, Takes, is_deaf};
ghost use Rattle.law_moves.specs.Wires.{Out, In};

use rh_shell::role::Role;

/// What was put on a leg is what was drawn and what is begun, over any number of calls: a draw of
/// the leg, a draw of another one, whatever logs nothing, and one behind the other.
pub fn puts_are_carried<R: Role>()
    ensures here { (p : Passage R) (end : NearEnd) (d : Drawn R) → (puts : Puts R.rules p end d)
        → Out p puts.passage end.leg end.begun d.bytes d.end.begun }
    ensures elsewhere { (p : Passage R) (end : NearEnd) (d : Drawn R) (leg : Leg) (begun : List ℕ)
        → (puts : Puts R.rules p end d) → same_leg end.leg leg ≡ false
        → Out p puts.passage leg begun [] begun }
    ensures quiet { (p q : Passage R) (leg : Leg) (begun : List ℕ) → IsQuiet p q
        → Out p q leg begun [] begun }
    ensures then { (p q r : Passage R) (leg : Leg) (begun first left second rest : List ℕ)
        → Out p q leg begun first left → Out q r leg left second rest
        → Out p r leg begun (first ++ second) rest }
{}

/// What came on a leg of frames that is heard is the frames that were taken and what is held, over
/// any number of calls.
pub fn frames_are_carried<R: Role>()
    ensures here { (p : Passage R) (end : NearEnd) (u : Turn R) (piece : List ℕ)
        → (takes : Takes R.rules p end u piece) → end.intake.stage ≡ stage.Frames
        → is_deaf R.rules u ≡ false
        → In p takes.passage end.leg end.pipe end.intake.held piece u.end.intake.held }
    ensures elsewhere { (p : Passage R) (end : NearEnd) (u : Turn R) (piece : List ℕ) (leg : Leg)
        (pipe : Option Pipe) (held : List ℕ) → (takes : Takes R.rules p end u piece)
        → same_leg end.leg leg ≡ false → In p takes.passage leg pipe held [] held }
    ensures quiet { (p q : Passage R) (leg : Leg) (pipe : Option Pipe) (held : List ℕ)
        → IsQuiet p q → In p q leg pipe held [] held }
    ensures then { (p q r : Passage R) (leg : Leg) (pipe : Option Pipe)
        (held first left second rest : List ℕ)
        → In p q leg pipe held first left → In q r leg pipe left second rest
        → In p r leg pipe held (first ++ second) rest }
{}
