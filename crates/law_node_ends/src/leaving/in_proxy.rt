//! Legs that an in proxy left. Its function does nothing: its contract is the law.

ghost use Rattle.rh_inproxy.specs.declared.state.InProxyConfig.{InProxyConfig};
ghost use Rattle.rh_inproxy.specs.Machine.{rules};
ghost use Rattle.rh_inproxy.specs.State.{first};
ghost use Rattle.law_node_streams.specs.Streams.{StaysUnused};

use law_node_causes::an_in_proxys_leg_comes_up_once;

/// A leg for which an in proxy has no use comes in use by coming up alone.
pub fn a_leg_that_an_in_proxy_left_stays_unused()
    ensures { (config : InProxyConfig) → StaysUnused rules (first config) }
{
    an_in_proxys_leg_comes_up_once();
}
