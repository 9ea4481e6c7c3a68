//! Why an out proxy refuses what comes. The function only calls the law that it stands on: its
//! contract is the law.

ghost use Rattle.std.specs.Prelude.{List};
ghost use Rattle.rh_outproxy.specs.declared.state.OutProxyConfig.{OutProxyConfig};
ghost use Rattle.rh_outproxy.specs.Machine.{rules};
ghost use Rattle.rh_outproxy.specs.OutProxy.{new_proxy};
ghost use Rattle.law_moves.specs.Moves.{Move, all_moved, started};
ghost use Rattle.law_moves.specs.Passages.Counted.{AreCounted};
ghost use Rattle.law_role_outproxy.specs.Refusing.{RefusesFor};

use crate::counts::an_out_proxy_is_opened_once;

/// Whatever moves an out proxy makes, allowed or not, where they are counted as a node counts them:
/// where it refuses a packet or an RPC PDU as unexpected, on a leg that came up, what came to it
/// before tells why; and where it refuses a packet for its cookie, that is an acknowledgement for
/// the proxy, and its client began with the expected cookie and never with the one that came.
pub fn what_an_out_proxy_refuses()
    ensures { (config : OutProxyConfig) (moves : List Move)
        → AreCounted rules (started (new_proxy config)) moves
        → RefusesFor config.number moves (all_moved rules (started (new_proxy config)) moves) }
{
    an_out_proxy_is_opened_once();
}
