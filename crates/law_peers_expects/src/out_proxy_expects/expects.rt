//! An out proxy expects what comes next. Its function only calls the laws that it stands on: its
//! contract is the law.

ghost use Rattle.std.specs.Prelude.{ℕ};
ghost use Rattle.rh_outproxy.specs.Machine.{rules};
ghost use Rattle.law_moves.specs.Wires.{of_leg};
ghost use Rattle.law_moves.specs.ReadBack.Reading.{all_read_of};
ghost use Rattle.law_role_server_rows.specs.Putting.Puts.{os};
ghost use Rattle.law_peers_moments.specs.Expecting.{Expects};
ghost use Rattle.law_peers_moments.specs.Moments.{IsMoment, Moves, Numbers, out_behind, server_behind};
ghost use Rattle.law_peers_expects.specs.OutProxyExpects.Premises.{AreFit};

use crate::out_proxy_expects::early::no_server_is_early;
use law_role_client::{a_client_acknowledges_what_came, a_client_names_its_out_channels};
use law_role_outproxy::{
    an_out_proxy_opens_as_it_was_asked, an_out_proxy_opens_what_came, what_an_out_proxy_refuses,
};
use law_role_server::{
    a_server_opens_once, a_server_puts_conn_c1_first, a_server_replaces_out_channels_one_by_one,
};
use law_role_server_rows::{
    a_server_copies_what_came, a_server_passes_acks_on_their_leg, a_server_writes_in_turn,
    a_server_writes_on_channels_that_began,
};
use law_role_windows::{
    a_server_passes_acknowledgements_on, an_in_proxy_passes_acknowledgements_on,
};

/// At each moment of a virtual connection: what is next of all that the server put on the leg of an
/// out proxy, that proxy refuses neither as unexpected nor for its cookie, if the client's window
/// and the lifetimes of out proxies are in range, and no OUT channel has the cookie of zeros. With
/// that cookie a server takes an out proxy's leg on which no channel began for that channel's
/// (MS-RPCH 3.2.4, 3.2.5).
pub fn an_out_proxy_expects_its_server()
    ensures { (numbers : Numbers) (reader : ℕ → ℕ) (moves : Moves)
        → IsMoment numbers reader moves → AreFit numbers moves → (n : ℕ)
        → Expects rules (out_behind numbers moves n) (os n)
        (all_read_of (of_leg (os n) (server_behind numbers moves).passage.put)) }
{
    no_server_is_early();
    a_server_passes_acknowledgements_on();
    an_in_proxy_passes_acknowledgements_on();
    a_client_names_its_out_channels();
    a_client_acknowledges_what_came();
    what_an_out_proxy_refuses();
    an_out_proxy_opens_as_it_was_asked();
    an_out_proxy_opens_what_came();
    a_server_opens_once();
    a_server_puts_conn_c1_first();
    a_server_replaces_out_channels_one_by_one();
    a_server_copies_what_came();
    a_server_writes_in_turn();
    a_server_writes_on_channels_that_began();
    a_server_passes_acks_on_their_leg();
}
