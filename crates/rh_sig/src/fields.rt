//! The fields of commands, each by the place of its command.

ghost use Rattle.std.specs.Prelude.{◌≡◌};
ghost use Rattle.rh_rts.specs.Showing.{shown};
ghost use Rattle.rh_sig.specs.Reading.{all_shown, command_at, number_at, cookie_at};
ghost use Rattle.rh_sig.specs.Reading.{received_of, window_of, ack_cookie_of};
ghost use Rattle.rh_sig.specs.Reading.{address_of, padding_of};
ghost use Rattle.rh_sig.specs.Values.{value_of};

use rh_rts::{ADDRESS_PADDING_LEN, Address4or16, CommandRef, Cookie, NO_COOKIE, V4_LEN};

/// The command in that place, counted from 0; `Empty` where there is none.
#[tactic(auto, using(crate::proofs::Keeping::in_place, crate::proofs::Keeping::past_all))]
fn command_at<'a>(commands: &[CommandRef<'a>], place: usize) -> CommandRef<'a>
    ensures { shown result ≡ command_at place (all_shown commands.now) }
{
    if place < commands.len() {
        commands[place]
    } else {
        CommandRef::Empty
    }
}

/// The number of the command in that place; 0 where it has none.
pub fn number_at(commands: &[CommandRef<'_>], place: usize) -> u32
    ensures { result ≡ number_at place (all_shown commands.now) }
{
    number_of(command_at(commands, place))
}

/// The cookie of the command in that place; zeros where it has none.
pub fn cookie_at(commands: &[CommandRef<'_>], place: usize) -> Cookie
    ensures { result ≡ cookie_at place (all_shown commands.now) }
{
    match command_at(commands, place) {
        CommandRef::Cookie(cookie) | CommandRef::AssociationGroupId(cookie) => cookie,
        _ => NO_COOKIE,
    }
}

/// The fields of the command in that place, if it is an acknowledgement; else zeros.
pub fn ack_at(commands: &[CommandRef<'_>], place: usize) -> (u32, u32, Cookie)
    ensures received { result.0 ≡ received_of (command_at place (all_shown commands.now)) }
    ensures window { result.1 ≡ window_of (command_at place (all_shown commands.now)) }
    ensures cookie { result.2 ≡ ack_cookie_of (command_at place (all_shown commands.now)) }
{
    match command_at(commands, place) {
        CommandRef::FlowControlAck {
            received,
            window,
            cookie,
        } => (received, window, cookie),
        _ => (0, 0, NO_COOKIE),
    }
}

/// The address of the command in that place and its padding; zeros where it has none.
pub fn address_at(
    commands: &[CommandRef<'_>],
    place: usize,
) -> (Address4or16, [u8; ADDRESS_PADDING_LEN])
    ensures address { result.0 ≡ address_of (command_at place (all_shown commands.now)) }
    ensures padding { result.1 ≡ padding_of (command_at place (all_shown commands.now)) }
{
    match command_at(commands, place) {
        CommandRef::ClientAddress { address, padding } => (address, padding),
        _ => (Address4or16::V4([0; V4_LEN]), [0; ADDRESS_PADDING_LEN]),
    }
}

/// The number of a command that has a number alone; else 0.
pub fn number_of(command: CommandRef<'_>) -> u32
    ensures { result ≡ value_of (shown command.entry) }
{
    match command {
        CommandRef::ReceiveWindowSize(number)
        | CommandRef::ConnectionTimeout(number)
        | CommandRef::ChannelLifetime(number)
        | CommandRef::ClientKeepalive(number)
        | CommandRef::Version(number)
        | CommandRef::Destination(number)
        | CommandRef::PingTrafficSentNotify(number) => number,
        _ => 0,
    }
}
