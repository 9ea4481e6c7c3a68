//! The commands of a packet, without its padding.

ghost use Rattle.std.specs.Prelude.{◌≡◌, ◌<◌, length, MatchOption};
ghost use Rattle.rh_sig.specs.Names.{unpadded};
ghost use Rattle.rh_sig.specs.declared.few_commands.TheConstants.{MOST};

use rh_rts::{CommandRef, View};
use std::marker::Model;

/// The most commands that a named packet has: those of CONN/B2.
pub const MOST: usize = 7;

/// At most seven commands, and their types.
#[derive(Drop)]
pub struct FewCommands<'a> {
    commands: [CommandRef<'a>; MOST],
    types: [u32; MOST],
    len: usize,
}

impl<'a> Model for FewCommands<'a> {
    ghost use Rattle.std.specs.Prelude.{◌≡◌, ◌≤◌, List, length, take};
    ghost use Rattle.rh_rts.specs.declared.command.Command.{Command};
    ghost use Rattle.rh_sig.specs.declared.few_commands.TheConstants.{MOST};
    ghost use Rattle.rh_sig.specs.Names.{types_of};
    ghost use Rattle.rh_sig.specs.Reading.{all_shown};

    ghost Value = { List Command };

    ghost view = { λ k. all_shown (take k.len k.commands) };

    ghost invariant = { λ k. (k.len ≤ MOST) × (length k.commands ≡ MOST)
        × (take k.len k.types ≡ types_of (all_shown (take k.len k.commands))) };
}

impl<'a> FewCommands<'a> {
    ghost use Rattle.std.specs.Prelude.{◌≡◌, ◌≤◌, ◌<◌, ◌++◌, ◌↔◌, [], ◌∷◌, length, IsTrue};
    ghost use Rattle.rh_rts.specs.Showing.{shown};
    ghost use Rattle.rh_sig.specs.declared.few_commands.TheConstants.{MOST};
    ghost use Rattle.rh_sig.specs.Names.{types_of};
    ghost use Rattle.rh_sig.specs.Reading.{all_shown};

    /// No commands.
    fn new() -> FewCommands<'a>
        ensures { result ≡ [] }
    {
        FewCommands {
            commands: [CommandRef::Empty; MOST],
            types: [0; MOST],
            len: 0,
        }
    }

    /// Whether there is no room for another command.
    fn is_full(&self) -> bool
        ensures { IsTrue result ↔ (MOST ≤ length self.now) }
    {
        self.len == MOST
    }

    /// Adds a command behind the others.
    fn push(&mut self, command: CommandRef<'a>)
        requires { length self.old < MOST }
        ensures { self.new ≡ self.old ++ shown command.entry ∷ [] }
    {
        self.commands[self.len] = command;
        self.types[self.len] = command.kind();
        self.len += 1;
    }

    /// The commands, in their order.
    pub fn commands(&self) -> &[CommandRef<'a>]
        ensures { all_shown result.now ≡ self.now }
    {
        &self.commands[..self.len]
    }

    /// The types of the commands.
    pub fn types(&self) -> &[u32]
        ensures { result.now ≡ types_of self.now }
    {
        &self.types[..self.len]
    }
}

/// The commands without the padding, unless there are more than seven.
pub fn without_padding<'a>(view: &View<'a>) -> Option<FewCommands<'a>>
    ensures { MatchOption result (MOST < length (unpadded view.now.commands))
        (λ k. k ≡ unpadded view.now.commands) }
{
    let mut kept = FewCommands::new();
    let mut left = view.commands();
    while let Some(command) = left.next() {
        if let CommandRef::Padding(_) = command {
            continue;
        }
        if kept.is_full() {
            return None;
        }
        kept.push(command);
    }
    Some(kept)
}
