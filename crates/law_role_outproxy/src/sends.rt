//! How an out proxy sends to its client. Its function does nothing: its contract is the law.

ghost use Rattle.std.specs.Prelude.{List};
ghost use Rattle.rh_outproxy.specs.declared.state.OutProxyConfig.{OutProxyConfig};
ghost use Rattle.rh_outproxy.specs.Machine.{rules};
ghost use Rattle.rh_outproxy.specs.OutProxy.{new_proxy};
ghost use Rattle.law_moves.specs.Moves.{Move, all_moved, started};
ghost use Rattle.law_role_outproxy.specs.Sending.{SendsWithin};

/// Whatever moves an out proxy makes, allowed or not: it put RPC PDUs to its client alone. Where at
/// most one packet opened the channel, the bytes of these PDUs are within the window that this
/// packet told, or within the room that an acknowledgement told which came from the server, with a
/// cookie of a channel that began on the client's leg; and an acknowledgement is refused as out of
/// range only where it is such a one, of more than was put or of too great a window (MS-RPCH 3.2).
///
/// No RPC PDU is refused as out of range; no packet is refused for a window, and a PDU from the
/// client is refused as unexpected.
pub fn an_out_proxy_sends_within_the_clients_window()
    ensures { (config : OutProxyConfig) (moves : List Move)
        → SendsWithin config.number (all_moved rules (started (new_proxy config)) moves) }
{}
