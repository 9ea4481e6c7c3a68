//! Where a leg leads: a host and a port.

ghost use Rattle.std.specs.Prelude.{◌≡◌, ◌≤◌, ◌↔◌, take, length, IsSome, IfSome};

/// The most bytes of a host: as many as its `len` counts.
pub const HOST_ROOM: usize = 255;

/// A host and a port.
#[derive(Clone, Copy, Debug, PartialEq, Eq)]
pub struct Address {
    /// The host, a name or an IPv4 address as text, in the first `len` bytes. Those behind are 0 in
    /// an address that `new` made.
    pub host: [u8; HOST_ROOM],
    /// How many bytes the host has: 1 to 255.
    pub len: u8,
    /// The port.
    pub port: u16,
    /// A host has a byte at least.
    pub ghost named: { 1 ≤ len },
}

impl Address {
    /// The address of a host of 1 to 255 bytes; `None` for every other length.
    pub fn new(host: &[u8], port: u16) -> Option<Address>
        ensures some { IfSome result (λ a. (take a.len a.host ≡ host.now) × (a.port ≡ port)) }
        ensures fits { IsSome result ↔ ((1 ≤ length host.now) × (length host.now ≤ HOST_ROOM)) }
    {
        let len = u8::try_from(host.len()).ok()?;
        if len == 0 {
            return None;
        }
        let mut bytes = [0u8; HOST_ROOM];
        bytes[..host.len()].copy_from_slice(host);
        Some(Address {
            host: bytes,
            len,
            port,
        })
    }

    /// The bytes of the host, 1 to 255.
    pub fn host(&self) -> &[u8]
        ensures host { result.now ≡ take self.now.len self.now.host }
        ensures some { 1 ≤ length result.now }
    {
        &self.host[..usize::from(self.len)]
    }
}
