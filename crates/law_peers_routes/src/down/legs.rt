//! Laws of the legs downwards. These functions do nothing: their contracts are the laws.

ghost use Rattle.std.specs.Prelude.{ℕ, List};
ghost use Rattle.law_order.specs.Logs.{IsLeg};
ghost use Rattle.rh_http.specs.declared.config.ClientConfig.{ClientConfig};
ghost use Rattle.rh_outproxy.specs.declared.state.OutProxyConfig.{OutProxyConfig};
ghost use Rattle.law_moves.specs.Moving.{Event, EndEvent};
ghost use Rattle.law_role_client.specs.Order as client_order;
ghost use Rattle.law_role_server.specs.Order as server_order;
ghost use Rattle.law_role_outproxy.specs.Order as proxy_order;
ghost use Rattle.law_peers_routes.specs.Downwards.{GoesDown};

use law_moves::{heads_have_no_messages, of_a_refusal_nothing_comes, what_comes_was_put};

/// What an out proxy took on its server's leg is a front of what the server put there, as order
/// sees it.
pub fn what_a_proxy_takes_was_sent()
    ensures { (config : ClientConfig) (window : ℕ) (out_config : ℕ → OutProxyConfig)
        (client server : List EndEvent) (outs : ℕ → List Event)
        (d : GoesDown config window out_config client server outs) (n : ℕ)
        → IsLeg (server_order.sent d.giver.passage n)
        (proxy_order.came_log (d.proxies n).passage.came n) }
{
    what_comes_was_put();
}

/// What the client took on the leg of an OUT channel is a front of what its out proxy put there; of
/// a refusal it takes nothing.
pub fn what_a_client_takes_was_put()
    ensures { (config : ClientConfig) (window : ℕ) (out_config : ℕ → OutProxyConfig)
        (client server : List EndEvent) (outs : ℕ → List Event)
        (d : GoesDown config window out_config client server outs) (n : ℕ)
        → IsLeg (proxy_order.put_items n (d.proxies n).passage.put)
        (client_order.came_log d.taker.passage.passage.came n) }
{
    what_comes_was_put();
    of_a_refusal_nothing_comes();
    heads_have_no_messages();
}
