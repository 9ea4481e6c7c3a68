//! A packet seen where its bytes stand, with no memory.

use crate::command::CommandRef;
use crate::reading::read_command;
use std::marker::Model;

/// A packet's flags, and its commands where they stand.
#[derive(Drop)]
pub struct View<'a> {
    pub(crate) flags: u16,
    pub(crate) count: u16,
    pub(crate) rest: &'a [u8],
}

impl<'a> Model for View<'a> {
    ghost use Rattle.rh_rts.specs.Packets.{Parts};
    ghost use Rattle.rh_rts.specs.Listing.{listed};

    ghost Value = { Parts };

    ghost view = { λ v. record { flags = v.flags; commands = listed v.count v.rest.now } };
}

impl<'a> View<'a> {
    ghost use Rattle.std.specs.Prelude.{◌≡◌};

    /// The flags, of `PING` to `ECHO`.
    pub fn flags(&self) -> u16
        ensures { result ≡ self.now.flags }
    {
        self.flags
    }

    /// The commands, in their order.
    pub fn commands(&self) -> Commands<'a>
        ensures { result ≡ self.now.commands }
    {
        Commands {
            left: self.count,
            rest: self.rest,
        }
    }
}

/// The commands of a packet that are still to come.
#[derive(Drop)]
pub struct Commands<'a> {
    left: u16,
    rest: &'a [u8],
}

impl<'a> Model for Commands<'a> {
    ghost use Rattle.std.specs.Prelude.{List};
    ghost use Rattle.rh_rts.specs.declared.command.Command.{Command};
    ghost use Rattle.rh_rts.specs.Listing.{listed};

    ghost Value = { List Command };

    ghost view = { λ c. listed c.left c.rest.now };
}

impl<'a> Iterator for Commands<'a> {
    type Item = CommandRef<'a>;

    ghost use Rattle.std.specs.Prelude.{length};
    ghost use Rattle.std.specs.Iterator.{at_most};
    ghost use Rattle.rh_rts.specs.Showing.{Gives};

    ghost next_gives = { Gives };

    ghost remaining = { λ commands. at_most (length commands) };

    fn next(&mut self) -> Option<CommandRef<'a>> {
        let left = self.left.checked_sub(1)?;
        let Ok((command, rest)) = read_command(0, self.rest) else {
            self.left = 0;
            return None;
        };
        self.left = left;
        self.rest = rest;
        Some(command)
    }
}
