//! What an out proxy puts to a client that asks for no echo. These functions only call the laws
//! that they stand on: their contracts are the laws.

ghost use Rattle.std.specs.Prelude.{List, Some};
ghost use Rattle.std.specs.List.{AllByRecursion};
ghost use Rattle.rh_sig.specs.declared.name.Pipe.TheVariants.{CoD};
ghost use Rattle.rh_outproxy.specs.declared.state.OutProxyConfig.{OutProxyConfig};
ghost use Rattle.rh_outproxy.specs.Machine.{rules};
ghost use Rattle.rh_outproxy.specs.OutProxy.{new_proxy};
ghost use Rattle.law_moves.specs.Moves.{AreAllowed, Move, all_moved, started};
ghost use Rattle.law_moves.specs.Wires.{of_leg};
ghost use Rattle.law_moves.specs.Passages.Counted.{AreCounted};
ghost use Rattle.law_moves.specs.ReadBack.Well.{Answers, IsWellText};
ghost use Rattle.law_moves.specs.Turns.{AreInTurn};
ghost use Rattle.law_role_outproxy.specs.Counted.{co_leg};
ghost use Rattle.law_peers_expects.specs.Asked.Asking.{AsksNoEcho, ServesClient};

use law_moves::{texts_are_whole, texts_read_well};
use law_role_outproxy::an_out_proxy_opens_to_its_client_in_order;

/// Where its moves are counted and in their turn, as a node makes them, and no head that came from
/// its client asks for an echo: an out proxy puts nothing to its client; or, where CONN/A1 came
/// from there, a front of the response, CONN/A3, Pings, CONN/C2, and what passes; or, where
/// OUT_R1/A3 came, a front of the response and what passes (MS-RPCH 2.1.2, 2.2.4; successors are
/// this profile's).
pub fn an_out_proxy_answers_echoes_alone()
    ensures { (config : OutProxyConfig) (moves : List Move)
        → AreAllowed rules (started (new_proxy config)) moves
        → AreCounted rules (started (new_proxy config)) moves
        → AreInTurn rules (new_proxy config) moves
        → AllByRecursion (AsksNoEcho (co_leg config.number)) moves
        → ServesClient config (all_moved rules (started (new_proxy config)) moves) }
{
    an_out_proxy_opens_to_its_client_in_order();
    texts_are_whole();
}

/// So each text that it puts to its client reads well there, whichever answers of reading do: no
/// packet without a name stands behind a head.
pub fn what_an_out_proxy_serves_reads_well()
    ensures { (well : Answers) (config : OutProxyConfig) (moves : List Move)
        → AreAllowed rules (started (new_proxy config)) moves
        → AreCounted rules (started (new_proxy config)) moves
        → AreInTurn rules (new_proxy config) moves
        → AllByRecursion (AsksNoEcho (co_leg config.number)) moves
        → AllByRecursion (IsWellText well (Some CoD)) (of_leg (co_leg config.number)
        (all_moved rules (started (new_proxy config)) moves).put) }
{
    an_out_proxy_answers_echoes_alone();
    texts_are_whole();
    texts_read_well();
}
