//! The values that commands may have here (profile). Those of receive windows are `rh_window`'s,
//! those of lifetimes `rh_keep`'s.

ghost use Rattle.std.specs.Prelude.{◌≡◌};
ghost use Rattle.rh_rts.specs.Showing.{shown};
ghost use Rattle.rh_sig.specs.Reading.{all_shown};
ghost use Rattle.rh_sig.specs.Values.{is_within};
ghost use Rattle.rh_sig.specs.Naming.{is_in_range, first_out};

use crate::fault::SigFault;
use crate::fields::number_of;
use rh_keep::{GREATEST_LIFETIME, LEAST_LIFETIME};
use rh_rts::CommandRef;
use rh_window::{GREATEST_WINDOW, LEAST_WINDOW};

/// The least connection timeout, in milliseconds.
pub const LEAST_TIMEOUT: u32 = 120_000;
/// The greatest connection timeout, in milliseconds.
pub const GREATEST_TIMEOUT: u32 = 14_400_000;
/// The connection timeout where nothing else is said, in milliseconds.
pub const DEFAULT_TIMEOUT: u32 = 120_000;
/// The keepalive interval that stands for the one agreed by default.
pub const DEFAULT_KEEPALIVE: u32 = 0;
/// The least other keepalive interval, in milliseconds.
pub const LEAST_KEEPALIVE: u32 = 60_000;
/// The greatest keepalive interval, in milliseconds.
pub const GREATEST_KEEPALIVE: u32 = 4_294_967_295;
/// The one version.
pub const PROTOCOL_VERSION: u32 = 1;

/// Whether the number is one of those from the least to the greatest.
fn is_within(least: u32, greatest: u32, number: u32) -> bool
    ensures { result ≡ is_within least greatest number }
{
    least <= number && number <= greatest
}

/// Whether the value of the command is in range.
fn is_in_range(command: CommandRef<'_>) -> bool
    ensures { result ≡ is_in_range (shown command.entry) }
{
    match command {
        CommandRef::ReceiveWindowSize(bytes) => is_within(LEAST_WINDOW, GREATEST_WINDOW, bytes),
        CommandRef::ConnectionTimeout(ms) => is_within(LEAST_TIMEOUT, GREATEST_TIMEOUT, ms),
        CommandRef::ChannelLifetime(bytes) => is_within(LEAST_LIFETIME, GREATEST_LIFETIME, bytes),
        CommandRef::ClientKeepalive(ms) => {
            ms == DEFAULT_KEEPALIVE || is_within(LEAST_KEEPALIVE, GREATEST_KEEPALIVE, ms)
        }
        CommandRef::Version(version) => version == PROTOCOL_VERSION,
        _ => true,
    }
}

/// The first command whose value is out of range.
pub fn first_out_of_range(commands: &[CommandRef<'_>]) -> Option<SigFault>
    ensures { result ≡ first_out (all_shown commands.now) }
{
    for command in commands {
        if !is_in_range(*command) {
            return Some(SigFault::OutOfRange {
                command: command.kind(),
                value: number_of(*command),
            });
        }
    }
    None
}
