//! Legs that a client left. Its function does nothing: its contract is the law.

ghost use Rattle.rh_http.specs.declared.config.ClientConfig.{ClientConfig};
ghost use Rattle.rh_client.specs.Client.{rules, acts};
ghost use Rattle.rh_client.specs.State.{first};
ghost use Rattle.law_node_streams.specs.Streams.{StaysUnused, StaysUnusedAtEnd};

use law_node_causes::a_clients_leg_comes_up_once;

/// A leg for which a client has no use comes in use by coming up alone, whatever is given and taken
/// there besides.
pub fn a_leg_that_a_client_left_stays_unused()
    ensures moves { (config : ClientConfig) → StaysUnused rules (first config) }
    ensures calls { (config : ClientConfig) → StaysUnusedAtEnd rules acts (first config) }
{
    a_clients_leg_comes_up_once();
}
