//! Answers for IN channels and wishes for OUT channels at an out proxy. Its function does nothing:
//! its contract is the law.

ghost use Rattle.std.specs.Prelude.{List};
ghost use Rattle.rh_outproxy.specs.declared.state.OutProxyConfig.{OutProxyConfig};
ghost use Rattle.rh_outproxy.specs.Machine.{rules};
ghost use Rattle.rh_outproxy.specs.OutProxy.{new_proxy};
ghost use Rattle.law_moves.specs.Moves.{AreAllowed, Move, all_moved, started};
ghost use Rattle.law_peers_forwarding.specs.Answering.Passing.{AnswersKeepBefore};

/// Whatever happens to an out proxy: it puts no more IN_R1/A4 and IN_R2/A4 to its client before the
/// first OUT_R1/A2 than IN_R1/A3 and IN_R2/A3 came from the server before the first OUT_R1/A1 (the
/// replacement of channels is this profile's).
pub fn an_out_proxy_keeps_answers_before_a_wish()
    ensures { (config : OutProxyConfig) (moves : List Move)
        → AreAllowed rules (started (new_proxy config)) moves
        → AnswersKeepBefore config.number (all_moved rules (started (new_proxy config)) moves) }
{}
