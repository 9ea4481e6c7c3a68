//! In which order a server is told of IN channels, and answers. These functions do nothing: their
//! contracts are the laws.

ghost use Rattle.std.specs.Prelude.{List, ℕ, ◌≡◌, ◌++◌};
ghost use Rattle.law_moves.specs.Moves.{EndMove};
ghost use Rattle.law_peers_moments.specs.Moments.{IsMoment, Moves, Numbers, server_behind};
ghost use Rattle.law_peers_in_channels.specs.InChannels.{AnnounceNext, AreAnnounced, AreAnswered, passed};

use crate::server_expects::an_in_proxy_in_turn_puts_in_order;
use law_peers_moments::replacements_go_round;
use law_role_client::{
    a_client_names_its_in_channels, a_client_opens_once, a_client_replaces_in_channels_one_by_one,
};
use law_role_outproxy::an_out_proxy_forwards_what_came;
use law_role_server::{a_server_answers_each_in_channel_once, a_server_opens_once};

/// At each moment of a virtual connection: the channels that were announced to the server are the
/// first so many, each on the is leg of the in proxy that reads it, and there in order behind the
/// one with which the leg began, once. An IN_R1/A2 or IN_R2/A2 that stands next on an is leg
/// announces the next channel, the latter on a leg that began with one, and only behind the answers
/// to all before. And behind each front of the server's moves the channels that had been announced
/// were the first so many, in the same way (successors are this profile's).
pub fn in_channels_are_announced_in_order()
    ensures order { (numbers : Numbers) (reader : ℕ → ℕ) (moves : Moves)
        → IsMoment numbers reader moves
        → AreAnnounced reader (server_behind numbers moves).passage }
    ensures next { (numbers : Numbers) (reader : ℕ → ℕ) (moves : Moves)
        → IsMoment numbers reader moves → AnnounceNext numbers moves }
    ensures fronts { (numbers : Numbers) (reader : ℕ → ℕ) (moves : Moves)
        → IsMoment numbers reader moves → (front later : List EndMove)
        → moves.server ≡ front ++ later → AreAnnounced reader (passed numbers front) }
{
    a_client_names_its_in_channels();
    a_client_opens_once();
    a_client_replaces_in_channels_one_by_one();
    an_in_proxy_in_turn_puts_in_order();
    an_out_proxy_forwards_what_came();
    a_server_opens_once();
    replacements_go_round();
}

/// The server answers them in that order: once it put as many IN_R1/A3 and IN_R2/A3 as IN_R1/A2 and
/// IN_R2/A2 had come behind a front of its moves, it put as many IN_R1/A3 as IN_R1/A2 had come
/// there (successors are this profile's).
pub fn in_channels_are_answered_in_order()
    ensures { (numbers : Numbers) (reader : ℕ → ℕ) (moves : Moves)
        → IsMoment numbers reader moves → AreAnswered numbers moves.server }
{
    a_server_answers_each_in_channel_once();
    replacements_go_round();
}
