//! The value of a named packet.

ghost use Rattle.std.specs.Prelude.{◌≡◌};
ghost use Rattle.rh_sig.specs.Reading.{all_shown, value};

use crate::fields::{ack_at, address_at, cookie_at, number_at};
use crate::name::Name;
use crate::named::Named;
use crate::rows::named_packets;
use rh_rts::CommandRef;

/// Reads the fields of the commands, each in its place, into variables of these names.
macro_rules! read {
    ($commands:ident [$($at:tt)*]) => {};
    ($commands:ident [$at:tt $($later:tt)*] { $($command:tt)* } $($behind:tt)*) => {
        read_one!($commands $at $($command)*);
        read!($commands [$($later)*] $($behind)*);
    };
}

/// Reads the fields of the command in that place into variables of these names.
macro_rules! read_one {
    ($commands:ident $at:tt Empty) => {};
    ($commands:ident $at:tt Ance) => {};
    ($commands:ident $at:tt Cookie $cookie:ident) => { let $cookie = cookie_at($commands, $at); };
    ($commands:ident $at:tt AssociationGroupId $cookie:ident) => {
        let $cookie = cookie_at($commands, $at);
    };
    ($commands:ident $at:tt FlowControlAck $received:ident $window:ident $cookie:ident) => {
        let ($received, $window, $cookie) = ack_at($commands, $at);
    };
    ($commands:ident $at:tt ClientAddress $address:ident $padding:ident) => {
        let ($address, $padding) = address_at($commands, $at);
    };
    ($commands:ident $at:tt $command:ident $number:ident) => {
        let $number = number_at($commands, $at);
    };
}

/// The named packet of this name, with the fields of these commands.
pub fn value_by(name: Name, commands: &[CommandRef<'_>]) -> Named
    ensures { result ≡ value name (all_shown commands.now) }
{
    macro_rules! rows {
        ($($name:ident $(($($field:ident),+))? on $($pipe:ident)|+ is $($flag:ident)|+
            [$($command:ident $(($of:ident))? $({ $($with:ident),+ })?),*];)*) => {
            match name {
                $(Name::$name => {
                    read!(commands [0 1 2 3 4 5 6] $({ $command $($of)? $($($with)+)? })*);
                    Named::$name $(($($field),+))?
                })*
            }
        };
    }
    named_packets!(rows)
}
