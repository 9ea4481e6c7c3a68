//! An audit of a recording of roles finds nothing. This function calls the laws that it stands on:
//! its contract is the law.

ghost use Rattle.std.specs.Prelude.{List, ◌∷◌, true};
ghost use Rattle.rh_record.specs.declared.line.Line.{Line};
ghost use Rattle.rh_record.specs.declared.line.Line.TheVariants.{First};
ghost use Rattle.rh_audit.specs.declared.fault.AuditFault.{AuditFault};
ghost use Rattle.rh_audit.specs.declared.prefixed.Prefixed.{Prefixed};
ghost use Rattle.rh_audit.specs.Audits.{IsAudit};
ghost use Rattle.rh_capture.specs.Captured.{captured};
ghost use Rattle.rh_world.specs.Any.{run};
ghost use Rattle.law_world_audited.specs.WholeAudits.Findings.{FindsNothing};

use crate::an_audit_of_a_recording_tells_no_fault;
use crate::far_legs_down::what_went_down_is_a_front;
use crate::far_legs_up::what_went_up_is_a_front;

/// For each recording of roles, whatever its lines cut, break and replace: the audit of its capture
/// tells no fault, and says yes both ways. What `audit` answers of what `capture` answers is so by
/// their contracts.
pub fn an_audit_of_a_recording_finds_nothing()
    ensures { (behind : List Line) (told : List AuditFault) (up down : Prefixed)
        → IsAudit (captured (run (First true ∷ behind))) told up down
        → FindsNothing told up down }
{
    an_audit_of_a_recording_tells_no_fault();
    what_went_up_is_a_front();
    what_went_down_is_a_front();
}
