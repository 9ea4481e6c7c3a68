//! Laws of what goes up. These functions do nothing: their contracts are the laws.

ghost use Rattle.std.specs.Prelude.{◌≡◌, ℕ, List, Bool, true};
ghost use mathlib.Core.List.{IsPrefix};
ghost use Rattle.rh_http.specs.declared.config.ClientConfig.{ClientConfig};
ghost use Rattle.law_order.specs.Routes.{IsRoute};
ghost use Rattle.law_order.specs.Taking.{ReportsEnd};
ghost use Rattle.law_moves.specs.Moving.{EndEvent, Event};
ghost use Rattle.rh_inproxy.specs.declared.state.InProxyConfig.{InProxyConfig};
ghost use Rattle.law_role_server.specs.Order.{taker_of};
ghost use Rattle.law_peers_routes.specs.Upwards.{GoesUp, up_route};

use law_moves::{of_a_refusal_nothing_comes, what_comes_was_put};
use law_node_begins::{
    a_client_begins_with_a_request, an_in_proxy_begins, an_in_proxy_refuses_first,
};
use law_node_streams::what_refuses_first_refuses_in_turn;
use law_order::{all_is_taken_at_a_clean_end, taken_is_a_front_of_given};
use law_role_client::a_client_gives_in_order;
use law_role_inproxy::an_in_proxy_keeps_order;
use law_role_server::a_server_takes_in_order;
use rh_inproxy::InProxyRole;

/// A client, the in proxies and a server, joined by legs that carry bytes, are a route: each keeps
/// its law of order, what each took is a front of what was put for it, and each channel that is
/// read has an in proxy of its own or is read by that of the one before it.
pub fn what_goes_up_is_a_route()
    ensures { (config : ClientConfig) (window : ℕ) (in_config : ℕ → InProxyConfig)
        (client_events server_events : List EndEvent) (ins : ℕ → List Event) (made : ℕ → Bool)
        (reader : ℕ → ℕ)
        (g : GoesUp config window in_config client_events server_events ins made reader)
        → IsRoute (up_route reader g.giver.passage (λ n. (g.proxies n).passage) g.taker.leads.moves
        g.taker.passage) }
{
    a_client_gives_in_order();
    an_in_proxy_keeps_order();
    a_server_takes_in_order();
    a_client_begins_with_a_request();
    an_in_proxy_begins();
    an_in_proxy_refuses_first();
    what_refuses_first_refuses_in_turn::<InProxyRole>();
    what_comes_was_put();
    of_a_refusal_nothing_comes();
}

/// So what the server took is a front of what the client gave, each PDU once and in order; and
/// where the server reports the end, it is all of it, and the client gives no more.
pub fn what_came_up_was_given()
    ensures taken { (config : ClientConfig) (window : ℕ) (in_config : ℕ → InProxyConfig)
        (client_events server_events : List EndEvent) (ins : ℕ → List Event) (made : ℕ → Bool)
        (reader : ℕ → ℕ)
        (g : GoesUp config window in_config client_events server_events ins made reader)
        → IsPrefix g.taker.passage.taken g.giver.passage.given }
    ensures ended { (config : ClientConfig) (window : ℕ) (in_config : ℕ → InProxyConfig)
        (client_events server_events : List EndEvent) (ins : ℕ → List Event) (made : ℕ → Bool)
        (reader : ℕ → ℕ)
        (g : GoesUp config window in_config client_events server_events ins made reader)
        → ReportsEnd (taker_of g.taker.passage.taken g.taker.passage.passage.role)
        → (g.taker.passage.taken ≡ g.giver.passage.given)
        × (g.giver.passage.passage.role.is_closing ≡ true) }
{
    what_goes_up_is_a_route();
    taken_is_a_front_of_given();
    all_is_taken_at_a_clean_end();
}
