//! What stands on a leg. These functions do nothing: their contracts are the laws.

ghost use Rattle.std.specs.Prelude.{◌≡◌, ◌++◌, Some, None, false};
ghost use Rattle.std.specs.declared.option.Option.{Option};
ghost use Rattle.rh_text.specs.declared.ends.Dir.{Dir};
ghost use Rattle.rh_sig.specs.declared.name.Pipe.{Pipe};
ghost use Rattle.rh_line.specs.declared.leg.Leg.{Leg};
ghost use Rattle.rh_shell.specs.Rules.{Rules};
ghost use Rattle.rh_shell.specs.Shells.{Shell, is_going};
ghost use Rattle.rh_wires.specs.Wires.{in_flight};
ghost use Rattle.rh_nodes.specs.World.{World};
ghost use Rattle.law_moves.specs.ReadBack.Reading.{messages_from, reading};
ghost use Rattle.law_node_history.specs.Carried.{wire_at};
ghost use Rattle.law_node_history.specs.Histories.{History};
ghost use Rattle.law_world_ways.specs.OnPaths.Legs.{IsInUse, on_leg};

/// On a leg that is up for the end that takes, whose nodes keep it, where the one that takes goes on
/// and has use for it, stand the messages that are read in the bytes in flight and then in those that
/// are begun, behind those that the node holds: also where the node that puts closed, or was told
/// alone that the leg ended or broke, once something came or was in flight; unless it refuses its
/// client there. Where the node that takes closed, the leg gives nothing more.
pub fn what_stands_on_a_leg_is_read_in_its_bytes<K, C, S, I, O, P, T>()
    ensures used { (v : World K C S I O) (h : History) (leg : Leg) (dir : Dir)
        (pipe : Option Pipe) (puts : Shell P) (rules : Rules T) (takes : Shell T)
        (used : IsInUse v h leg dir puts rules takes) → on_leg v h leg dir pipe puts rules takes
        ≡ Some (messages_from pipe (reading used.far.intake.stage used.far.intake.held)
        (in_flight dir (wire_at v.legs leg) ++ used.near.begun)) }
    ensures closed { (v : World K C S I O) (h : History) (leg : Leg) (dir : Dir)
        (pipe : Option Pipe) (puts : Shell P) (rules : Rules T) (takes : Shell T)
        → is_going takes.course ≡ false → on_leg v h leg dir pipe puts rules takes ≡ None }
{}
