//! What an in proxy puts first on each leg. These functions do nothing: their contracts are the
//! laws.

ghost use Rattle.std.specs.Prelude.{ℕ, ◌≡◌, List, [], false, Some, None};
ghost use Rattle.std.specs.List.{AllByRecursion};
ghost use Rattle.std.specs.List.{AllByRecursion};
ghost use Rattle.rh_sig.specs.declared.name.Pipe.TheVariants.{IsU};
ghost use Rattle.rh_line.specs.declared.leg.Leg.{Leg};
ghost use Rattle.rh_shell.specs.Shells.{same_leg};
ghost use Rattle.rh_inproxy.specs.declared.state.InProxyConfig.{InProxyConfig};
ghost use Rattle.rh_inproxy.specs.Machine.{rules};
ghost use Rattle.rh_inproxy.specs.State.{first, is_client_leg};
ghost use Rattle.law_moves.specs.Moves.{Move, started, all_moved, AreAllowed};
ghost use Rattle.law_moves.specs.Wires.{of_leg};
ghost use Rattle.law_moves.specs.ReadBack.Reading.{Begins};
ghost use Rattle.law_moves.specs.ReadBack.Well.{Answers, IsWellText, is_packet};
ghost use Rattle.law_moves.specs.Turns.{AreInTurn, RefusesInTurn};
ghost use Rattle.law_node_streams.specs.Streams.{RefusesFirst};
ghost use Rattle.law_node_begins.specs.ProxiesBegin.Echoes.{AsksNoEcho};
ghost use Rattle.law_node_begins.specs.ProxiesBegin.Pipes.{ci, is, in_pipe};

use law_moves::{heads_have_no_messages, texts_are_whole, texts_read_well};

/// What an in proxy puts begins as the other end reads it: on the is leg of its number no texts; on
/// a ci leg, where its moves are in their turn, nothing but the answer to an echo request, alone;
/// and on any other leg nothing.
pub fn an_in_proxy_begins()
    ensures server { (config : InProxyConfig) (moves : List Move)
        → AreAllowed rules (started (first config)) moves
        → Begins (Some IsU)
        (of_leg (is config.number) (all_moved rules (started (first config)) moves).put) }
    ensures client { (config : InProxyConfig) (moves : List Move) (number : ℕ)
        → AreAllowed rules (started (first config)) moves → AreInTurn rules (first config) moves
        → Begins None (of_leg (ci number) (all_moved rules (started (first config)) moves).put) }
    ensures elsewhere { (config : InProxyConfig) (moves : List Move) (leg : Leg)
        → AreAllowed rules (started (first config)) moves → is_client_leg leg ≡ false
        → same_leg (is config.number) leg ≡ false
        → of_leg leg (all_moved rules (started (first config)) moves).put ≡ [] }
{
    texts_are_whole();
    heads_have_no_messages();
}

/// Where no head that came on a ci leg asks for an echo, it put nothing there, if its moves are in
/// their turn.
pub fn an_in_proxy_answers_echoes_alone()
    ensures { (config : InProxyConfig) (moves : List Move) (number : ℕ)
        → AreAllowed rules (started (first config)) moves → AreInTurn rules (first config) moves
        → AllByRecursion (AsksNoEcho (ci number)) moves
        → of_leg (ci number) (all_moved rules (started (first config)) moves).put ≡ [] }
{}

/// Each text that it puts reads well where it is read, as long as a packet without a name does,
/// which stands behind the answer to an echo request.
pub fn what_an_in_proxy_puts_first_reads_well()
    ensures server { (well : Answers) (config : InProxyConfig) (moves : List Move)
        → AreAllowed rules (started (first config)) moves
        → AllByRecursion (IsWellText well (Some IsU))
        (of_leg (is config.number) (all_moved rules (started (first config)) moves).put) }
    ensures client { (config : InProxyConfig) (moves : List Move) (number : ℕ)
        → AreAllowed rules (started (first config)) moves → AreInTurn rules (first config) moves
        → AllByRecursion (IsWellText is_packet None)
        (of_leg (ci number) (all_moved rules (started (first config)) moves).put) }
{
    texts_are_whole();
    texts_read_well();
}

/// An in proxy refuses its client on a ci leg only where it put nothing there, if its moves are in
/// their turn; and on other legs whatever moves it makes.
pub fn an_in_proxy_refuses_first()
    ensures client { (config : InProxyConfig) (number : ℕ)
        → RefusesInTurn rules (first config) (in_pipe config) (ci number) }
    ensures elsewhere { (config : InProxyConfig) (leg : Leg) → is_client_leg leg ≡ false
        → RefusesFirst rules (first config) (in_pipe config) leg }
{}
