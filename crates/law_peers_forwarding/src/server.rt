//! A server at a moment of a virtual connection. This function calls the laws that it stands on:
//! its contract is the law.

ghost use Rattle.std.specs.Prelude.{ℕ};
ghost use Rattle.law_peers_moments.specs.Moments.{IsMoment, Moves, Numbers};
ghost use Rattle.law_peers_expects.specs.OutProxyExpects.Early.{HaveLifetimes};
ghost use Rattle.law_peers_forwarding.specs.Fits.{HasRoom};

use crate::due::one_answer_is_due;
use crate::late::few_channels_are_late;
use crate::lifetimes::lifetimes_are_long;
use crate::server_full::{
    an_acknowledgement_waits_longest, few_channels_are_answered_before_an_acknowledgement,
    few_packets_wait_at_a_server, fifteen_wait_where_there_is_no_room,
    no_more_acknowledgements_wait_than_channels,
};
use law_peers_moments::replacements_go_round;
use law_peers_room::what_a_server_forwards;
use law_role_server::a_server_opens_once;

/// At each moment of a virtual connection whose OUT channels have lifetimes in their range: no
/// packet that stands next on an is leg is refused at the server for want of room. At most fifteen
/// acknowledgements to the client wait there (MS-RPCH 3.2.1; the room is this profile's).
pub fn a_server_has_room()
    ensures { (numbers : Numbers) (reader : ℕ → ℕ) (moves : Moves)
        → IsMoment numbers reader moves → HaveLifetimes numbers → HasRoom numbers moves }
{
    lifetimes_are_long();
    few_channels_are_late();
    one_answer_is_due();
    replacements_go_round();
    a_server_opens_once();
    an_acknowledgement_waits_longest();
    few_channels_are_answered_before_an_acknowledgement();
    few_packets_wait_at_a_server();
    fifteen_wait_where_there_is_no_room();
    no_more_acknowledgements_wait_than_channels();
    what_a_server_forwards();
}
