//! What a server expects of its proxies. These functions do nothing: their contracts are the laws.

ghost use Rattle.std.specs.Prelude.{ℕ};
ghost use Rattle.rh_server.specs.Servers.{rules};
ghost use Rattle.law_moves.specs.Wires.{of_leg};
ghost use Rattle.law_moves.specs.ReadBack.Reading.{all_read_of};
ghost use Rattle.law_role_inproxy.specs.Counted.{is_leg};
ghost use Rattle.law_role_outproxy.specs.Counted.{os_leg};
ghost use Rattle.law_peers_moments.specs.Expecting.{Expects};
ghost use Rattle.law_peers_moments.specs.Moments.{IsMoment, Moves, Numbers};
ghost use Rattle.law_peers_moments.specs.Moments.{in_behind, out_behind, server_behind};
ghost use Rattle.law_peers_in_channels.specs.ServerExpects.Expected.{AnnouncesNone, ExpectsPdus, ExpectsThose};

use crate::server_expects::in_proxies::{
    an_in_proxy_connects_as_it_was_asked, an_in_proxy_in_turn_puts_in_order,
};
use law_peers_expects::no_client_is_opened_early;
use law_peers_moments::replacements_go_round;
use law_role_client::{
    a_client_names_its_in_channels, a_client_opens_once, a_client_replaces_out_channels_one_by_one,
};
use law_role_client_rows::{a_client_opens_out_channels_in_order, a_client_switches_in_order};
use law_role_inproxy::{
    an_in_proxy_ends_last, an_in_proxy_puts_for_what_came, an_in_proxy_sends_where_it_was_told,
};
use law_role_outproxy::{an_out_proxy_forwards_what_came, an_out_proxy_opens_to_the_server_first};
use law_role_server::{a_server_opens_once, a_server_replaces_out_channels_one_by_one};
use law_role_server_in::what_a_server_refuses_of_in_channels;
use law_role_server_rows::what_a_server_refuses;

/// At each moment of a virtual connection, of what an out proxy put a server refuses nothing that
/// comes next as unexpected, or for its cookie. CONN/A2 comes first and once, on the first leg;
/// OUT_R1/A4 first on the leg behind the writing channel's, where OUT_R1/A1 asked for it; and Ack
/// behind them. What they name is the client's connection, the channel that writes, and the channel
/// of the leg (MS-RPCH 3.2.5; successors are this profile's).
pub fn a_server_expects_its_out_proxies()
    ensures { (numbers : Numbers) (reader : ℕ → ℕ) (moves : Moves) → IsMoment numbers reader moves
        → (n : ℕ) → Expects rules (server_behind numbers moves).passage (os_leg n)
        (all_read_of (of_leg (os_leg n) (out_behind numbers moves n).put)) }
{
    no_client_is_opened_early();
    a_client_names_its_in_channels();
    a_client_opens_out_channels_in_order();
    a_client_replaces_out_channels_one_by_one();
    an_in_proxy_connects_as_it_was_asked();
    an_out_proxy_opens_to_the_server_first();
    a_server_replaces_out_channels_one_by_one();
    what_a_server_refuses();
    replacements_go_round();
}

/// At each moment of a virtual connection, of what an in proxy put a server refuses nothing that
/// comes next as unexpected, or for its cookie: no packet but perhaps IN_R1/A2, IN_R1/A6 and
/// IN_R2/A2, of which nothing is said here, and no RPC PDU on a leg that was up. CONN/B2 comes
/// first and once, on the first leg, with the client's connection; acknowledgements with a
/// destination, OUT_R1/A8 and END/A2 come behind it or behind IN_R1/A2. OUT_R1/A8 comes where
/// OUT_R1/A5 was put for it, and in the order of the channels that the client switches to. RPC PDUs
/// come once CONN/A2 and CONN/B2 came, and where the server told its window on the leg; and neither
/// they nor END/A2 come behind IN_R1/A6 or END/A2 there (MS-RPCH 3.2.5; replacement and END are
/// this profile's).
pub fn a_server_expects_all_but_successors()
    ensures packets { (numbers : Numbers) (reader : ℕ → ℕ) (moves : Moves)
        → IsMoment numbers reader moves → (n : ℕ)
        → ExpectsThose AnnouncesNone rules (server_behind numbers moves).passage (is_leg n)
        (all_read_of (of_leg (is_leg n) (in_behind numbers moves n).put)) }
    ensures pdus { (numbers : Numbers) (reader : ℕ → ℕ) (moves : Moves)
        → IsMoment numbers reader moves → (n : ℕ)
        → ExpectsPdus rules (server_behind numbers moves).passage (is_leg n)
        (all_read_of (of_leg (is_leg n) (in_behind numbers moves n).put)) }
{
    a_client_names_its_in_channels();
    a_client_opens_once();
    a_client_opens_out_channels_in_order();
    a_client_switches_in_order();
    an_in_proxy_connects_as_it_was_asked();
    an_in_proxy_ends_last();
    an_in_proxy_in_turn_puts_in_order();
    an_in_proxy_puts_for_what_came();
    an_in_proxy_sends_where_it_was_told();
    an_out_proxy_forwards_what_came();
    an_out_proxy_opens_to_the_server_first();
    a_server_opens_once();
    a_server_replaces_out_channels_one_by_one();
    what_a_server_refuses();
    what_a_server_refuses_of_in_channels();
    replacements_go_round();
}
