//! Of which channels acknowledgements come at a server. This function does nothing: its contract is
//! the law.

ghost use Rattle.std.specs.Prelude.{List, ℕ, ◌≡◌, ◌++◌};
ghost use Rattle.law_moves.specs.Moves.{EndMove};
ghost use Rattle.law_peers_moments.specs.Moments.{IsJoined, Moves, Numbers};
ghost use Rattle.law_peers_forwarding.specs.ServerFull.Numbered.{AreLate};

use law_peers_in_channels::an_in_proxy_in_turn_puts_in_order;
use law_peers_room::in_channels_are_answered_before_they_are_acknowledged;

/// Where the moves of the roles are joined by legs: each acknowledgement to the client that came at
/// the server since a front of its moves, or stands next on an is leg, is of a channel that was
/// announced there and is no earlier than the last but one that was announced on that leg behind
/// the front, and no IN_R1/A6 had come on the leg there (MS-RPCH 3.2.1; successors are this
/// profile's).
pub fn acknowledgements_are_of_late_channels()
    ensures { (numbers : Numbers) (reader : ℕ → ℕ) (moves : Moves)
        → IsJoined numbers reader moves → (front later : List EndMove)
        → moves.server ≡ front ++ later → AreLate numbers reader moves front }
{
    an_in_proxy_in_turn_puts_in_order();
    in_channels_are_answered_before_they_are_acknowledged();
}
