//! What went up in a capture. This function calls the laws that it stands on: its contract is the
//! law.

ghost use Rattle.std.specs.Prelude.{◌≡◌, List, ◌∷◌, length, ℕ, true};
ghost use Rattle.rh_line.specs.declared.leg.LegKind.TheVariants.{ClientIn, InServer};
ghost use Rattle.rh_record.specs.declared.line.Line.{Line};
ghost use Rattle.rh_record.specs.declared.line.Line.TheVariants.{First};
ghost use Rattle.rh_audit.specs.Audits.{AreTags, carried_by, prefixed};
ghost use Rattle.rh_audit.specs.declared.prefixed.Prefixed.TheVariants.{Yes};
ghost use Rattle.rh_capture.specs.Captured.{captured};
ghost use Rattle.rh_world.specs.Any.{run};

use crate::what_is_joined_was_put_on_legs;
use crate::what_moved::a_capture_has_what_moved;
use law_audit::{
    no_bytes_are_no_frames, what_is_put_is_seen, what_is_seen_far_is_a_front, what_roles_see_fits,
};
use law_node_begins::an_in_proxy_begins;
use law_peers_routes::what_goes_up_is_a_route;
use law_world_order::directions_are_joined;
use rh_world::WorldConfig;

/// For each recording of roles, whatever its lines cut, break and replace: an audit of its capture
/// says yes towards the server. The RPC PDUs that were seen on the legs from in proxies are a front
/// of those that were seen on the legs to them.
pub fn what_went_up_is_a_front()
    ensures { (behind : List Line) (tags : List ℕ)
        → AreTags (captured (run (First true ∷ behind))) tags
        → let seen = captured (run (First true ∷ behind)) in
        prefixed (carried_by InServer seen tags) (carried_by ClientIn seen tags)
        ≡ Yes (length (carried_by InServer seen tags)) (length (carried_by ClientIn seen tags)) }
{
    what_is_seen_far_is_a_front();
    no_bytes_are_no_frames();
    what_is_put_is_seen();
    what_roles_see_fits();
    an_in_proxy_begins();
    what_goes_up_is_a_route();
    what_is_joined_was_put_on_legs();
    a_capture_has_what_moved();
    directions_are_joined::<WorldConfig>();
}
