//! Laws of what goes down. These functions do nothing: their contracts are the laws.

ghost use Rattle.std.specs.Prelude.{ℕ, List, ◌≡◌, true};
ghost use mathlib.Core.List.{IsPrefix};
ghost use Rattle.rh_http.specs.declared.config.ClientConfig.{ClientConfig};
ghost use Rattle.law_order.specs.Routes.{IsRoute};
ghost use Rattle.law_order.specs.Taking.{ReportsEnd};
ghost use Rattle.law_moves.specs.Moving.{Event, EndEvent};
ghost use Rattle.law_role_client.specs.Order.{taker_of};
ghost use Rattle.rh_outproxy.specs.declared.state.OutProxyConfig.{OutProxyConfig};
ghost use Rattle.rh_server.specs.States.{is_closing};
ghost use Rattle.law_peers_routes.specs.Downwards.{GoesDown, route_of, client_after, client_took, server_accepted, server_after};

use crate::down::legs::{what_a_client_takes_was_put, what_a_proxy_takes_was_sent};
use law_order::{all_is_taken_at_a_clean_end, taken_is_a_front_of_given};
use law_role_client::a_client_takes_in_order;
use law_role_outproxy::an_out_proxy_keeps_order;
use law_role_server::a_server_gives_in_order;

/// The streams of a server, out proxies and a client are a route from what the server was given to
/// what was taken from the client.
pub fn what_goes_down_is_a_route()
    ensures { (config : ClientConfig) (window : ℕ) (out_config : ℕ → OutProxyConfig)
        (client server : List EndEvent) (outs : ℕ → List Event)
        (d : GoesDown config window out_config client server outs) → IsRoute (route_of d) }
{
    a_server_gives_in_order();
    an_out_proxy_keeps_order();
    a_client_takes_in_order();
    what_a_proxy_takes_was_sent();
    what_a_client_takes_was_put();
}

/// What was taken from the client is a front of what the server was given, each PDU once and in
/// order; and where the client reports that the server gives no more, it is all of it, and the
/// server accepts no more.
pub fn what_came_down_was_given()
    ensures taken { (config : ClientConfig) (window : ℕ) (out_config : ℕ → OutProxyConfig)
        (client server : List EndEvent) (outs : ℕ → List Event)
        (d : GoesDown config window out_config client server outs)
        → IsPrefix d.taker.passage.taken d.giver.passage.given }
    ensures ended { (config : ClientConfig) (window : ℕ) (out_config : ℕ → OutProxyConfig)
        (client server : List EndEvent) (outs : ℕ → List Event)
        (d : GoesDown config window out_config client server outs)
        → ReportsEnd (taker_of d.taker.passage.taken d.taker.passage.passage.role)
        → (d.taker.passage.taken ≡ d.giver.passage.given)
        × (is_closing d.giver.passage.passage.role.giving ≡ true) }
{
    what_goes_down_is_a_route();
    taken_is_a_front_of_given();
    all_is_taken_at_a_clean_end();
}

/// So it is for the callers of a node at each end, by its events.
pub fn callers_take_what_was_given()
    ensures taken { (config : ClientConfig) (window : ℕ) (out_config : ℕ → OutProxyConfig)
        (client server : List EndEvent) (outs : ℕ → List Event)
        → GoesDown config window out_config client server outs
        → IsPrefix (client_took config client) (server_accepted window server) }
    ensures ended { (config : ClientConfig) (window : ℕ) (out_config : ℕ → OutProxyConfig)
        (client server : List EndEvent) (outs : ℕ → List Event)
        → GoesDown config window out_config client server outs
        → ReportsEnd (taker_of (client_took config client) (client_after config client))
        → (client_took config client ≡ server_accepted window server)
        × (is_closing (server_after window server).giving ≡ true) }
{
    what_came_down_was_given();
}
