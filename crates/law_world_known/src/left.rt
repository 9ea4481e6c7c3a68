//! What is left in recordings at rest. This function does nothing: its contract is the law.

ghost use Rattle.std.specs.Prelude.{List, ℕ};
ghost use Rattle.rh_record.specs.declared.line.Line.{Line};
ghost use Rattle.law_world_known.specs.Left.{LeavesNoneWhereQuiet};

use crate::recordings::hops_to_the_server_are_known_at_rest;
use law_world_drained::nothing_is_left_on_known_hops;

/// Behind a `settle` line that is answered quiet, of a recording of roles whose `break` and `end`
/// lines that are answered ok are each of a leg that is over there: while all nodes go on and no
/// lifetime stands in the way, what the answers so far tell as given in a direction is exactly what
/// they tell as taken, where its ends are open and at one channel, the windows on the server's hops
/// were told, and the hop of the client is known: all that was sent there came, and its sender knows
/// all that its receiver told (MS-RPCH 3.2).
pub fn nothing_is_left_where_clients_hops_are_known()
    ensures { (before : List Line) (rounds : ℕ) → LeavesNoneWhereQuiet before rounds }
{
    hops_to_the_server_are_known_at_rest();
    nothing_is_left_on_known_hops();
}
