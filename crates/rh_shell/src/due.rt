//! A packet that waits.

ghost use Rattle.std.specs.Prelude.{◌≡◌};
ghost use Rattle.rh_shell.specs.Waiting.{edge_of};

use rh_sig::Named;

/// Where a packet that waits came from.
#[derive(Clone, Copy, PartialEq, Eq)]
pub enum Origin {
    /// The role made it.
    Own,
    /// It came on another leg, and is to be forwarded.
    Forwarded,
}

/// A packet that waits, and where it came from.
#[derive(Clone, Copy, PartialEq, Eq)]
pub struct Due {
    pub packet: Named,
    pub origin: Origin,
}

impl Due {
    ghost use Rattle.rh_shell.specs.Waiting.{is_of, takes, better};

    /// Whether it came from there.
    pub fn is_of(&self, origin: Origin) -> bool
        ensures { result ≡ is_of origin self.now }
    {
        self.origin == origin
    }

    /// Whether the packet is merged with this one: both acknowledge the same channel to the same
    /// destination.
    pub(crate) fn takes(&self, packet: &Named) -> bool
        ensures { result ≡ takes packet.now self.now }
    {
        match (self.packet, *packet) {
            (Named::AckTo(older, _, _, channel), Named::AckTo(newer, _, _, other)) => {
                older == newer && channel.0.as_slice() == other.0.as_slice()
            }
            _ => false,
        }
    }

    /// What stands in its place once the packet is merged with it: the one with the greater edge,
    /// the newer where they are equal.
    pub(crate) fn better(&self, packet: Named) -> Due
        ensures { result ≡ better self.now packet }
    {
        if edge_of(&packet) < edge_of(&self.packet) {
            return *self;
        }
        Due { packet, ..*self }
    }
}

/// The edge that an acknowledgement with a destination tells, in bytes: bytes received and window.
fn edge_of(packet: &Named) -> u64
    ensures { result ≡ edge_of packet.now }
{
    match *packet {
        Named::AckTo(_, received, window, _) => u64::from(received) + u64::from(window),
        _ => 0,
    }
}
