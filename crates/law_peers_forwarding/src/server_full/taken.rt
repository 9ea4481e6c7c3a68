//! How many IN channels a server answers while an acknowledgement waits. This function does
//! nothing: its contract is the law.

ghost use Rattle.std.specs.Prelude.{List, ℕ};
ghost use Rattle.law_moves.specs.Moves.{EndMove};
ghost use Rattle.law_peers_forwarding.specs.ServerFull.Taken.{FewAreTaken};

use law_peers_room::few_answers_overtake_an_acknowledgement;

/// Whatever moves a server makes, allowed or not: since the acknowledgement to the client came that
/// waits longest, the server put at most eleven IN_R1/A3 and IN_R2/A3 beside those that were due
/// there, if these were one at most and the lifetimes of the OUT channels have room for all that
/// waited there and 312 bytes more (MS-RPCH 3.2.1, 3.2.5; the meters are this profile's).
pub fn few_channels_are_answered_before_an_acknowledgement()
    ensures { (window : ℕ) (moves : List EndMove) → FewAreTaken window moves }
{
    few_answers_overtake_an_acknowledgement();
}
