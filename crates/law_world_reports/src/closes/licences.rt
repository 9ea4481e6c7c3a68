//! What closed each node that a report tells closed. These functions do nothing: their contracts
//! are the laws.

ghost use Rattle.std.specs.Prelude.{◌≡◌, []};
ghost use Rattle.rh_line.specs.declared.cause.Cause.{Cause};
ghost use Rattle.rh_line.specs.declared.cause.Cause.TheVariants as cause;
ghost use Rattle.rh_record.specs.declared.answer.Answer.TheVariants.{NodeClosed};
ghost use Rattle.rh_record.specs.declared.answer.Who.{Who};
ghost use Rattle.rh_record.specs.declared.line.Line.{Line};
ghost use Rattle.rh_company.specs.Company.{rules_of};
ghost use Rattle.rh_nodes.specs.Giving.{Deeds};
ghost use Rattle.rh_nodes.specs.Opening.{Makers};
ghost use Rattle.rh_nodes.specs.Steps.{step};
ghost use Rattle.rh_nodes.specs.World.{World};
ghost use Rattle.law_node_history.specs.Closes.{IsOneOf};
ghost use Rattle.law_world_reports.specs.Closed.Licences.{IsLicensed};

use law_node_causes::events_close_with_their_causes;
use rh_shell::Role;

/// Each node that a line reports as closed was closed by something that the line told it, which
/// shows in the answers of that line, and with a cause that its role allows of that.
///
/// `LegBroken` shows as a break of that leg, or as its end in the direction in which the node puts
/// there; `LegEnded` as its end in the direction in which the node reads, and it tells how much of
/// an unfinished head, greeting or frame is held there; `Silent` as the moment that it names, at
/// which an unfinished leg was silent as long as the role allows; `HttpRefused` as a move to the
/// node on that leg of bytes in which the role refused a head; `ControlFull` as a move of bytes to
/// the node on some leg, and each other cause on the leg that it names.
pub fn each_close_shows<K, C: Role, S: Role, I: Role, O: Role>()
    ensures { (m : Makers K I O) (d : Deeds C S) (line : Line) (w : World K C S I O)
        (node : Who) (why : Cause) → w.closed ≡ []
        → IsOneOf (NodeClosed node why)
        (step (rules_of C.rules S.rules I.rules O.rules) m d line w).1
        → IsLicensed (rules_of C.rules S.rules I.rules O.rules) m d line w node why }
{
    events_close_with_their_causes::<C>();
    events_close_with_their_causes::<S>();
    events_close_with_their_causes::<I>();
    events_close_with_their_causes::<O>();
}
