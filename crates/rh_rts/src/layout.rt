//! The layout of the commands (MS-RPCH 2.2.3.5).

ghost use Rattle.std.specs.Prelude.{◌≡◌, ◌<◌, length, IfSome};
ghost use Rattle.rh_rts.specs.Layouts.{rows, layout_of, fixed_length, greatest_field, asked_length};

use crate::command::{ADDRESS_PADDING_LEN, COOKIE_LEN, GREATEST_DESTINATION, V4_LEN, V6_LEN};
use crate::fault::RtsKind;
use crate::kinds;

/// The length of a type, and of every other number of a command, in bytes.
pub const NUMBER_LEN: usize = 4;
/// Where the fields behind a type and a number begin.
pub const FIELDS_AT: usize = NUMBER_LEN + NUMBER_LEN;
/// Where the cookie of a `FlowControlAck` begins.
pub const ACK_COOKIE_AT: usize = FIELDS_AT + NUMBER_LEN;

/// The AddressType of an address of 4 bytes.
pub const TYPE_OF_V4: u32 = 0;
/// The AddressType of an address of 16 bytes.
pub const TYPE_OF_V6: u32 = 1;
/// The greatest AddressType.
pub const GREATEST_ADDRESS_TYPE: u32 = TYPE_OF_V6;
/// The greatest ConformanceCount, in bytes.
pub const GREATEST_COUNT: u32 = 65_535;

/// What stands behind the type of a command.
#[derive(Clone, Copy)]
pub enum Layout {
    Nothing,
    /// A number of four bytes.
    Number,
    /// A number of four bytes, 0 to 3.
    Destination,
    Cookie,
    /// Two numbers and a cookie.
    Ack,
    /// A number, and so many bytes.
    Counted,
    /// The type of an address, its bytes, and padding.
    Address,
}

/// Calls a macro with a row for each command: its type, its variant, its layout and its name.
macro_rules! layouts {
    ($rows:ident) => {
        $rows! {
            RECEIVE_WINDOW_SIZE ReceiveWindowSize Number "ReceiveWindowSize";
            FLOW_CONTROL_ACK FlowControlAck Ack "FlowControlAck";
            CONNECTION_TIMEOUT ConnectionTimeout Number "ConnectionTimeout";
            COOKIE Cookie Cookie "Cookie";
            CHANNEL_LIFETIME ChannelLifetime Number "ChannelLifetime";
            CLIENT_KEEPALIVE ClientKeepalive Number "ClientKeepalive";
            VERSION Version Number "Version";
            EMPTY Empty Nothing "Empty";
            PADDING Padding Counted "Padding";
            NEGATIVE_ANCE NegativeAnce Nothing "NegativeANCE";
            ANCE Ance Nothing "ANCE";
            CLIENT_ADDRESS ClientAddress Address "ClientAddress";
            ASSOCIATION_GROUP_ID AssociationGroupId Cookie "AssociationGroupId";
            DESTINATION Destination Destination "Destination";
            PING_TRAFFIC_SENT_NOTIFY PingTrafficSentNotify Number "PingTrafficSentNotify";
        }
    };
}

/// A command of an enum, with these names for its fields.
macro_rules! fields {
    ($of:ident $name:ident Nothing $a:ident $b:ident $c:ident) => { $of::$name };
    ($of:ident $name:ident Ack $a:ident $b:ident $c:ident) => {
        $of::$name { received: $a, window: $b, cookie: $c }
    };
    ($of:ident $name:ident Address $a:ident $b:ident $c:ident) => {
        $of::$name { address: $a, padding: $b }
    };
    ($of:ident $name:ident $one:ident $a:ident $b:ident $c:ident) => { $of::$name($a) };
}

/// The layout behind this type; `None` where no command has the type.
#[tactic(auto, unfolding(crate::specs::Layouts::row_of))]
pub fn layout_of(kind: u32) -> Option<Layout>
    ensures layout { result ≡ layout_of kind }
    ensures known { IfSome result (λ _. kind < length rows) }
{
    macro_rules! rows {
        ($($kind:ident $name:ident $layout:ident $text:literal;)*) => {
            match kind {
                $(kinds::$kind => Some(Layout::$layout),)*
                _ => None,
            }
        };
    }
    layouts!(rows)
}

impl Layout {
    /// The bytes of a command with its type, as far as no field tells them.
    pub fn fixed_length(self) -> usize
        ensures { result ≡ fixed_length self }
    {
        match self {
            Layout::Nothing => NUMBER_LEN,
            Layout::Number | Layout::Destination | Layout::Counted | Layout::Address => FIELDS_AT,
            Layout::Cookie => NUMBER_LEN + COOKIE_LEN,
            Layout::Ack => ACK_COOKIE_AT + COOKIE_LEN,
        }
    }

    /// The greatest value of the number behind the type, and how a greater one is told; `None`
    /// where each number will do.
    pub fn greatest_field(self) -> Option<(u32, RtsKind)>
        ensures { result ≡ greatest_field self }
    {
        match self {
            Layout::Destination => Some((GREATEST_DESTINATION, RtsKind::BadType)),
            Layout::Counted => Some((GREATEST_COUNT, RtsKind::BadCount)),
            Layout::Address => Some((GREATEST_ADDRESS_TYPE, RtsKind::BadAddressType)),
            Layout::Nothing | Layout::Number | Layout::Cookie | Layout::Ack => None,
        }
    }

    /// The bytes that a ConformanceCount or an AddressType asks for.
    pub fn asked_length(self, field: u32) -> usize
        ensures { result ≡ asked_length self field }
    {
        match self {
            Layout::Counted => field as usize,
            Layout::Address if field == TYPE_OF_V4 => V4_LEN + ADDRESS_PADDING_LEN,
            Layout::Address => V6_LEN + ADDRESS_PADDING_LEN,
            Layout::Nothing | Layout::Number | Layout::Destination | Layout::Cookie | Layout::Ack =>
                0,
        }
    }
}

pub(crate) use fields;
pub(crate) use layouts;
