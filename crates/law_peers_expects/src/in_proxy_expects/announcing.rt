//! What an in proxy tells the server first. Its function does nothing: its contract is the law.

ghost use Rattle.std.specs.Prelude.{List};
ghost use Rattle.rh_inproxy.specs.declared.state.InProxyConfig.{InProxyConfig};
ghost use Rattle.rh_inproxy.specs.Machine.{rules};
ghost use Rattle.rh_inproxy.specs.State.{first};
ghost use Rattle.law_moves.specs.Moves.{Move, all_moved, started};
ghost use Rattle.law_peers_expects.specs.InProxyExpects.Announcing.{AnnouncesWhatCame};

/// Whatever moves an in proxy makes, allowed or not: each CONN/B2 that it put on its is leg has the
/// connection, the channel and the association group of a CONN/B1 that came on the ci leg of its
/// own number, and each IN_R1/A2 the connection, the predecessor and the successor of an IN_R1/A1
/// that came there (MS-RPCH 3.2.3; successors are this profile's).
pub fn an_in_proxy_announces_what_came()
    ensures { (config : InProxyConfig) (moves : List Move)
        → AnnouncesWhatCame config.number (all_moved rules (started (first config)) moves) }
{}
