//! What an in proxy tells its client of its windows. This function does nothing: its contract is
//! the law.

ghost use Rattle.std.specs.Prelude.{List};
ghost use Rattle.rh_inproxy.specs.declared.state.InProxyConfig.{InProxyConfig};
ghost use Rattle.rh_inproxy.specs.Machine.{rules};
ghost use Rattle.rh_inproxy.specs.State.{first};
ghost use Rattle.law_moves.specs.Moves.{Move, all_moved, started};
ghost use Rattle.law_role_edges.specs.ClientWindows.{TellsClient};

/// Whatever moves an in proxy makes, allowed or not: of the current channel and of the next one, no
/// more was told by its window than the client was told: the window with which channels open, which
/// CONN/B2 or IN_R1/A2 told once it was put, or the edge of an acknowledgement to the client with
/// the channel's cookie that was put (MS-RPCH 3.2).
pub fn an_in_proxy_told_what_its_windows_told()
    ensures { (config : InProxyConfig) (moves : List Move)
        → TellsClient config (all_moved rules (started (first config)) moves) }
{}
