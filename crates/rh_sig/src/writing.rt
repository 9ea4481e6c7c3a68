//! Writes named packets.

ghost use Rattle.std.specs.Prelude.{◌≡◌};
ghost use Rattle.rh_rts.specs.Packets.{parts, IsPacket};
ghost use Rattle.rh_rts.specs.Writing.{Writes};
ghost use Rattle.rh_sig.specs.declared.name.Name.{Name};
ghost use Rattle.rh_sig.specs.declared.name.Pipe.{Pipe};
ghost use Rattle.rh_sig.specs.declared.named.Named.{Named};
ghost use Rattle.rh_sig.specs.Names.{IsCarried, IsNamed};
ghost use Rattle.rh_sig.specs.Written.{IsWritten};
ghost use Rattle.rh_sig.specs.Values.{name_of_named, parts_of, ReadsAs, MayBeWritten};

use crate::named::Named;
use crate::rows::named_packets;
use rh_rts::packet::{
    EOF, IN_CHANNEL, NONE, OTHER_CMD, OUT_CHANNEL, PING, RECYCLE_CHANNEL, length_of,
};
use rh_rts::{Command, NoRoom, encode_parts};

/// Writes the packet at the front of the room, and answers its length in bytes.
///
/// Fails where the packet is longer than the room, which then stays as it was.
/// On each pipe that carries its name, what it writes has that name alone and reads as this value.
pub fn write_named(named: &Named, room: &mut [u8]) -> Result<usize, NoRoom>
    requires { MayBeWritten named.now }
    ensures writes { Writes (parts_of named.now) room.old room.new result }
    ensures packet { IsPacket (parts_of named.now) }
    ensures reads { (pipe : Pipe) → IsCarried (name_of_named named.now) pipe
        → ReadsAs (parts_of named.now) pipe named.now }
    ensures alone { (pipe : Pipe) (other : Name) → IsCarried (name_of_named named.now) pipe
        → IsNamed (parts_of named.now) pipe other → other ≡ name_of_named named.now }
    ensures back { (pipe : Pipe) (other : Named) → IsCarried (name_of_named named.now) pipe
        → ReadsAs (parts_of named.now) pipe other → other ≡ named.now }
{
    write_row(named, room)
}

/// Writes the flags and the commands of the packet's row.
fn write_row(named: &Named, room: &mut [u8]) -> Result<usize, NoRoom>
    requires { MayBeWritten named.now }
    ensures { IsWritten named.now room.old room.new result }
{
    macro_rules! rows {
        ($($name:ident $(($($field:ident),+))? on $($pipe:ident)|+ is $($flag:ident)|+
            [$($command:ident $(($of:ident))? $({ $($with:ident),+ })?),*];)*) => {
            match *named {
                $(Named::$name $(($($field),+))? => {
                    let commands = [$(Command::$command $(($of))? $({ $($with),+ })?),*];
                    write_its_parts(named, $($flag)|+, commands, room)
                })*
            }
        };
    }
    named_packets!(rows)
}

/// Writes the packet, whose flags and commands these are.
fn write_its_parts<const N: usize>(
    named: &Named,
    flags: u16,
    commands: [Command; N],
    room: &mut [u8],
) -> Result<usize, NoRoom>
    requires written { MayBeWritten named.now }
    requires parts { parts flags commands ≡ parts_of named.now }
    ensures { IsWritten named.now room.old room.new result }
{
    prove!(length_of(&commands) > 0);
    encode_parts(flags, &commands, room)
}
