//! Which acknowledgement waits longest at a server. This function does nothing: its contract is the
//! law.

ghost use Rattle.std.specs.Prelude.{List, ℕ};
ghost use Rattle.law_moves.specs.Moves.{EndMove};
ghost use Rattle.law_peers_forwarding.specs.ServerFull.Oldest.{HasOldest};

use law_peers_room::what_a_server_forwards;

/// Whatever moves a server makes, allowed or not: where acknowledgements to the client wait, there
/// is a move behind which one waited that waits still and was not put since; and of each channel
/// for which one waits, one came on an is leg by this move or behind it. By this move no answer to
/// an IN channel becomes due, nor is one put that was not due (MS-RPCH 3.2.1).
pub fn an_acknowledgement_waits_longest()
    ensures { (window : ℕ) (moves : List EndMove) → HasOldest window moves }
{
    what_a_server_forwards();
}
