//! How many acknowledgements wait at a server. This function does nothing: its contract is the law.

ghost use Rattle.std.specs.Prelude.{ℕ};
ghost use Rattle.law_peers_moments.specs.Moments.{IsJoined, Moves, Numbers};
ghost use Rattle.law_peers_forwarding.specs.ServerFull.Few.{FewWait};

use crate::server_full::numbered::acknowledgements_are_of_late_channels;
use law_peers_room::what_a_server_forwards;
use law_role_client::a_client_names_its_in_channels;

/// Where the moves of the roles are joined by legs: no more acknowledgements to the client wait at
/// the server than there are channels of which one came since that came which waits longest; and
/// one less where another channel's stands next on an is leg (MS-RPCH 3.2.1).
pub fn no_more_acknowledgements_wait_than_channels()
    ensures { (numbers : Numbers) (reader : ℕ → ℕ) (moves : Moves)
        → IsJoined numbers reader moves → FewWait numbers reader moves }
{
    acknowledgements_are_of_late_channels();
    a_client_names_its_in_channels();
    what_a_server_forwards();
}
