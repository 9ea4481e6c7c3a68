//! What an out proxy puts first on each leg. These functions do nothing: their contracts are the
//! laws.

ghost use Rattle.std.specs.Prelude.{◌≡◌, List, [], false, Some};
ghost use Rattle.std.specs.List.{AllByRecursion};
ghost use Rattle.rh_sig.specs.declared.name.Pipe.TheVariants.{CoD, OsU};
ghost use Rattle.rh_line.specs.declared.leg.Leg.{Leg};
ghost use Rattle.rh_shell.specs.Shells.{same_leg};
ghost use Rattle.rh_outproxy.specs.declared.state.OutProxyConfig.{OutProxyConfig};
ghost use Rattle.rh_outproxy.specs.Machine.{rules};
ghost use Rattle.rh_outproxy.specs.OutProxy.{new_proxy};
ghost use Rattle.law_moves.specs.Moves.{Move, started, all_moved, AreAllowed};
ghost use Rattle.law_moves.specs.Wires.{of_leg};
ghost use Rattle.law_moves.specs.ReadBack.Reading.{Begins};
ghost use Rattle.law_moves.specs.ReadBack.Well.{Answers, IsWellText, is_packet};
ghost use Rattle.law_moves.specs.Turns.{AreInTurn, RefusesInTurn};
ghost use Rattle.law_node_streams.specs.Streams.{RefusesFirst};
ghost use Rattle.law_node_begins.specs.ProxiesBegin.Pipes.{co, os, out_pipe};

use law_moves::{heads_have_no_messages, texts_are_whole, texts_read_well};

/// What an out proxy puts begins as the other end reads it: on the leg to the server no texts; on
/// the client's, where its moves are in their turn, the whole response first and no other text
/// behind it, or the answer to an echo request alone; and on any other leg nothing.
pub fn an_out_proxy_begins()
    ensures server { (config : OutProxyConfig) (moves : List Move)
        → AreAllowed rules (started (new_proxy config)) moves
        → Begins (Some OsU)
        (of_leg (os config.number) (all_moved rules (started (new_proxy config)) moves).put) }
    ensures client { (config : OutProxyConfig) (moves : List Move)
        → AreAllowed rules (started (new_proxy config)) moves
        → AreInTurn rules (new_proxy config) moves
        → Begins (Some CoD)
        (of_leg (co config.number) (all_moved rules (started (new_proxy config)) moves).put) }
    ensures elsewhere { (config : OutProxyConfig) (moves : List Move) (leg : Leg)
        → AreAllowed rules (started (new_proxy config)) moves
        → same_leg (co config.number) leg ≡ false → same_leg (os config.number) leg ≡ false
        → of_leg leg (all_moved rules (started (new_proxy config)) moves).put ≡ [] }
{
    texts_are_whole();
    heads_have_no_messages();
}

/// Each text that it puts reads well where it is read, as long as a packet without a name does,
/// which stands behind the answer to an echo request.
pub fn what_an_out_proxy_puts_first_reads_well()
    ensures server { (well : Answers) (config : OutProxyConfig) (moves : List Move)
        → AreAllowed rules (started (new_proxy config)) moves
        → AllByRecursion (IsWellText well (Some OsU))
        (of_leg (os config.number) (all_moved rules (started (new_proxy config)) moves).put) }
    ensures client { (config : OutProxyConfig) (moves : List Move)
        → AreAllowed rules (started (new_proxy config)) moves
        → AreInTurn rules (new_proxy config) moves
        → AllByRecursion (IsWellText is_packet (Some CoD))
        (of_leg (co config.number) (all_moved rules (started (new_proxy config)) moves).put) }
{
    texts_are_whole();
    texts_read_well();
}

/// An out proxy refuses its client only where it put nothing to it, if its moves are in their turn;
/// and on other legs whatever moves it makes.
pub fn an_out_proxy_refuses_first()
    ensures client { (config : OutProxyConfig)
        → RefusesInTurn rules (new_proxy config) (out_pipe config) (co config.number) }
    ensures elsewhere { (config : OutProxyConfig) (leg : Leg)
        → same_leg (co config.number) leg ≡ false
        → RefusesFirst rules (new_proxy config) (out_pipe config) leg }
{}
