//! What a server puts for an out proxy, at a moment of a virtual connection. These functions call
//! the laws that they stand on: their contracts are the laws.

ghost use Rattle.std.specs.Prelude.{ℕ};
ghost use Rattle.law_moves.specs.Wires.{of_leg};
ghost use Rattle.law_role_outproxy.specs.Counted.{os_leg};
ghost use Rattle.law_peers_moments.specs.Moments.{IsMoment, Moves, Numbers, out_behind, server_behind};
ghost use Rattle.law_peers_expects.specs.OutProxyExpects.Early.{HaveLifetimes};
ghost use Rattle.law_peers_room.specs.OutRoom.Room.{AcksFewBetween, HasRoom};

use crate::answers::one_answer_follows_a_wish;
use crate::due::one_answer_is_due;
use crate::late::few_channels_are_late;
use crate::lifetimes::lifetimes_are_long;
use crate::passing::few_answers_pass_an_acknowledgement;
use crate::server_full::{
    a_server_forwards_what_came, acknowledgements_are_of_late_channels,
    an_acknowledgement_waits_longest, few_packets_wait_at_a_server,
};
use law_peers_moments::replacements_go_round;
use law_peers_room::an_out_proxy_has_room_to_forward;
use law_role_client::a_client_names_its_in_channels;
use law_role_server::a_server_opens_once;
use law_role_server_rows::a_server_writes_on_channels_that_began;

/// At each moment of a virtual connection whose OUT channels have lifetimes in their range: in each
/// part of what the server put on an os leg in which one IN_R1/A3 or IN_R2/A3 stands at most, at
/// most ten IN channels are acknowledged to the client. For when the first of these
/// acknowledgements goes, few answers were put since the one came that waits longest; so the
/// channels that are acknowledged by the last one are few (MS-RPCH 3.2.1; the replacement of
/// channels is this profile's).
pub fn a_server_acknowledges_few_between_answers()
    ensures { (numbers : Numbers) (reader : ℕ → ℕ) (moves : Moves)
        → IsMoment numbers reader moves → HaveLifetimes numbers → (n : ℕ)
        → AcksFewBetween (of_leg (os_leg n) (server_behind numbers moves).passage.put) }
{
    a_client_names_its_in_channels();
    a_server_forwards_what_came();
    a_server_opens_once();
    a_server_writes_on_channels_that_began();
    acknowledgements_are_of_late_channels();
    an_acknowledgement_waits_longest();
    few_answers_pass_an_acknowledgement();
    few_channels_are_late();
    few_packets_wait_at_a_server();
    lifetimes_are_long();
    one_answer_follows_a_wish();
    one_answer_is_due();
    replacements_go_round();
}

/// There each out proxy has room for what it is to forward from the server to its client: at most
/// fourteen packets wait, and it refuses none for want of room (MS-RPCH 2.2.4; the room is this
/// profile's).
pub fn an_out_proxy_has_room()
    ensures { (numbers : Numbers) (reader : ℕ → ℕ) (moves : Moves)
        → IsMoment numbers reader moves → HaveLifetimes numbers → (n : ℕ)
        → HasRoom (out_behind numbers moves n) }
{
    a_server_acknowledges_few_between_answers();
    an_out_proxy_has_room_to_forward();
}
