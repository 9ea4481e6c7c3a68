//! Which name a packet has.

ghost use Rattle.std.specs.Prelude.{◌≡◌};
ghost use Rattle.rh_sig.specs.Looking.{names, found};

use crate::kinds::kind;
use crate::name::{Name, Pipe};
use crate::rows::named_packets;
use crate::signature::Sig;
use rh_rts::kinds;
use rh_rts::packet::{EOF, IN_CHANNEL, NONE, OTHER_CMD, OUT_CHANNEL, PING, RECYCLE_CHANNEL};

/// The name that a packet has on this pipe with these flags and types of commands.
#[tactic(auto, unfolding(crate::specs::Looking::names))]
pub fn name_by(pipe: Pipe, flags: u16, types: &[u32]) -> Option<Name>
    ensures { result ≡ found names pipe flags types.now }
{
    macro_rules! rows {
        ($($name:ident $(($($field:ident),+))? on $($pipe:ident)|+ is $($flag:ident)|+
            [$($command:ident $(($of:ident))? $({ $($with:ident),+ })?),*];)*) => {
            match pipe {
                $($(Pipe::$pipe)|+
                    if (Sig { flags: $($flag)|+, types: [$(kind!($command)),*] })
                        .fits(flags, types) => Some(Name::$name),)*
                _ => None,
            }
        };
    }
    named_packets!(rows)
}
