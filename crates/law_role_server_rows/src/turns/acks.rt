//! On which legs a server passes acknowledgements on. Its function does nothing: its contract is
//! the law.

ghost use Rattle.std.specs.Prelude.{List, ℕ};
ghost use Rattle.rh_server.specs.Servers.{acts, first, rules};
ghost use Rattle.law_moves.specs.Moves.{AreAllowedAtEnd, EndMove, all_end_moved, end_started};
ghost use Rattle.law_role_server_rows.specs.InTurn.Acks.{PassesOnOwn};

use crate::refusals::what_a_server_refuses;

/// Whatever moves a server makes that are allowed: each acknowledgement to an out proxy that it put
/// on an os leg has the cookie with which an OUT channel began there, or the one of zeros: for a
/// channel of that cookie one may go on a leg where none began yet (MS-RPCH 3.2.5).
pub fn a_server_passes_acks_on_their_leg()
    ensures { (window : ℕ) (moves : List EndMove)
        → AreAllowedAtEnd rules acts (end_started (first window)) moves
        → PassesOnOwn (all_end_moved rules acts (end_started (first window)) moves).passage }
{
    what_a_server_refuses();
}
