//! What is left in recordings at rest. This function does nothing: its contract is the law.

ghost use Rattle.std.specs.Prelude.{List, ℕ};
ghost use Rattle.rh_record.specs.declared.line.Line.{Line};
ghost use Rattle.law_world_drained.specs.Left.{LeavesNoneWhereQuiet};

use law_node_begins::proxies_keep_their_pipes;
use law_peers_routes::{what_goes_down_is_a_route, what_goes_up_is_a_route};
use law_world_waits::what_is_not_taken_waits_at_nodes;

/// Behind a `settle` line that is answered quiet, of a recording of roles whose `break` and `end`
/// lines that are answered ok are each of a leg that is over there: while all nodes go on and no
/// lifetime stands in the way, what the answers so far tell as given in a direction is exactly what
/// they tell as taken, where its ends are open and at one channel, and the hops of that channel are
/// known: all that was sent there came, and each sender knows all that its receiver told (MS-RPCH
/// 3.2).
pub fn nothing_is_left_on_known_hops()
    ensures { (before : List Line) (rounds : ℕ) → LeavesNoneWhereQuiet before rounds }
{
    proxies_keep_their_pipes();
    what_goes_down_is_a_route();
    what_goes_up_is_a_route();
    what_is_not_taken_waits_at_nodes();
}
