//! Legs that an out proxy left. Its function does nothing: its contract is the law.

ghost use Rattle.rh_outproxy.specs.declared.state.OutProxyConfig.{OutProxyConfig};
ghost use Rattle.rh_outproxy.specs.Machine.{rules};
ghost use Rattle.rh_outproxy.specs.OutProxy.{new_proxy};
ghost use Rattle.law_node_streams.specs.Streams.{StaysUnused};

/// A leg for which an out proxy has no use comes in use by coming up alone.
pub fn a_leg_that_an_out_proxy_left_stays_unused()
    ensures { (config : OutProxyConfig) → StaysUnused rules (new_proxy config) }
{}
