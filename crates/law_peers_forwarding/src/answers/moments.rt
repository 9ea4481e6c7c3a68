//! Answers for IN channels and wishes for OUT channels at a moment of a virtual connection. Its
//! functions only call laws that they stand on: their contracts are the laws.

ghost use Rattle.std.specs.Prelude.{ℕ};
ghost use Rattle.law_peers_moments.specs.Moments.{AreJoined, AreMade, IsMoment, Moves, Numbers};
ghost use Rattle.law_peers_moments.specs.Moments.{client_behind, passages, server_behind};
ghost use Rattle.law_peers_forwarding.specs.Answering.Passing.{AnswersComeBefore, OneFollows};

use crate::answers::passing::an_out_proxy_keeps_answers_before_a_wish;
use crate::answers::wishes::a_client_asks_for_one_in_channel_behind_a_wish;
use law_peers_moments::replacements_go_round;
use law_peers_room::what_waits_at_an_out_proxy;
use law_role_client::{
    a_client_asks_where_a_successor_is_wanted, a_client_replaces_out_channels_one_by_one,
};
use law_role_server::a_server_replaces_out_channels_one_by_one;
use law_role_server_rows::a_server_writes_on_channels_that_began;

/// Where the moves of the roles are joined by legs: no more IN_R1/A4 and IN_R2/A4 came to the
/// client on a co leg before the first OUT_R1/A2 than the server put IN_R1/A3 and IN_R2/A3 on the
/// os leg of that number before the first OUT_R1/A1 (the replacement of channels is this
/// profile's).
pub fn answers_come_before_a_wish()
    ensures { (numbers : Numbers) (reader : ℕ → ℕ) (moves : Moves) → AreMade numbers moves
        → AreJoined reader (passages numbers moves) → (n : ℕ)
        → AnswersComeBefore n (client_behind numbers moves).passage
        (server_behind numbers moves).passage }
{
    an_out_proxy_keeps_answers_before_a_wish();
}

/// At each moment of a virtual connection: of what the server put on an os leg, at most one
/// IN_R1/A3 or IN_R2/A3 stands behind the first OUT_R1/A1 (the replacement of channels is this
/// profile's).
pub fn one_answer_follows_a_wish()
    ensures { (numbers : Numbers) (reader : ℕ → ℕ) (moves : Moves)
        → IsMoment numbers reader moves → (n : ℕ)
        → OneFollows n (server_behind numbers moves).passage }
{
    answers_come_before_a_wish();
    a_client_asks_for_one_in_channel_behind_a_wish();
    a_client_asks_where_a_successor_is_wanted();
    a_client_replaces_out_channels_one_by_one();
    what_waits_at_an_out_proxy();
    replacements_go_round();
    a_server_replaces_out_channels_one_by_one();
    a_server_writes_on_channels_that_began();
}
