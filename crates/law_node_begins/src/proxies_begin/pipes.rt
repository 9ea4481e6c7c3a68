//! Which pipe a proxy reads on each of its legs. Its function does nothing: its contract is the
//! law.

ghost use Rattle.rh_inproxy.specs.declared.state.InProxyConfig.{InProxyConfig};
ghost use Rattle.rh_inproxy.specs.Machine as in_proxy;
ghost use Rattle.rh_inproxy.specs.State.{first};
ghost use Rattle.rh_outproxy.specs.declared.state.OutProxyConfig.{OutProxyConfig};
ghost use Rattle.rh_outproxy.specs.Machine as out_proxy;
ghost use Rattle.rh_outproxy.specs.OutProxy.{new_proxy};
ghost use Rattle.law_node_streams.specs.Streams.{HasPipes};
ghost use Rattle.law_node_begins.specs.ProxiesBegin.Pipes.{in_pipe, out_pipe};

/// The pipe that a proxy reads on a leg never changes.
pub fn proxies_keep_their_pipes()
    ensures in_proxy { (config : InProxyConfig)
        → HasPipes in_proxy.rules (first config) (in_pipe config) }
    ensures out_proxy { (config : OutProxyConfig)
        → HasPipes out_proxy.rules (new_proxy config) (out_pipe config) }
{}
