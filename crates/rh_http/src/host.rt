//! The host of a target (profile).

ghost use Rattle.std.specs.Prelude.{◌≡◌, ◌<◌, ◌≤◌, ◌-◌, ◌++◌, true, false, length, take, drop, slice_index, replicate, MatchOption};
ghost use Rattle.std.specs.List.{list_all};
ghost use Rattle.rh_http.specs.Hosts.{IsHost, KeepsHost, greatest_host};
ghost use Rattle.rh_http.specs.Hosts.{is_host_byte as host_byte};

use crate::fault::HostFault;

/// The most characters of a host.
pub const GREATEST_HOST: usize = 255;

/// A host: 1 to 255 letters, digits, `-`, `.`, `_` and `@` (profile). Some mail servers are named
/// by mailbox and domain.
///
/// The text is the first `len` of the bytes. Those behind it are 0, so hosts are equal where their
/// texts are.
#[derive(Clone, Copy, Debug, PartialEq, Eq)]
pub struct Host {
    pub bytes: [u8; GREATEST_HOST],
    pub len: u8,
    ghost kept: { KeepsHost bytes len },
}

impl Host {
    ghost use Rattle.std.specs.Prelude.{◌↔◌, IfOk, IfErr, IsOk, IsTrue};
    ghost use Rattle.rh_http.specs.Hosts.{IsHostFault};

    /// The host of this text.
    ///
    /// Fails where it is empty, then where it is longer than 255 bytes, then at the first byte that
    /// may not stand in a host.
    pub fn new(text: &[u8]) -> Result<Host, HostFault>
        ensures text { IfOk result (λ host. take host.len host.bytes ≡ text.now) }
        ensures taken { IsOk result ↔ IsHost text.now }
        ensures fault { IfErr result (λ fault. IsHostFault text.now fault) }
    {
        if text.is_empty() {
            return Err(HostFault::Empty);
        }
        if text.len() > GREATEST_HOST {
            return Err(HostFault::TooLong(text.len()));
        }
        if let Some(place) = wrong_place(text) {
            return Err(HostFault::Character {
                place,
                byte: text[place],
            });
        }
        Ok(Host {
            bytes: padded(text),
            len: text.len() as u8,
        })
    }

    /// The characters of the host.
    pub fn text(&self) -> &[u8]
        ensures text { result.now ≡ take self.now.len self.now.bytes }
        ensures sound { IsHost result.now }
    {
        &self.bytes[..self.len as usize]
    }
}

/// Whether the byte may stand in a host.
fn is_host_byte(byte: u8) -> bool
    ensures { result ≡ host_byte byte }
{
    byte.is_ascii_alphanumeric() || matches!(byte, b'-' | b'.' | b'_' | b'@')
}

/// The place of the first byte that may not stand in a host.
fn wrong_place(text: &[u8]) -> Option<usize>
    ensures { MatchOption result (list_all host_byte text.now ≡ true)
        (λ place. (place < length text.now) × (host_byte (slice_index text.now place) ≡ false)
        × (list_all host_byte (take place text.now) ≡ true)) }
{
    for place in 0..text.len() {
        if !is_host_byte(text[place]) {
            return Some(place);
        }
    }
    None
}

/// The bytes of a host's text, and 0 behind them.
fn padded(text: &[u8]) -> [u8; GREATEST_HOST]
    requires { length text.now ≤ greatest_host }
    ensures { result ≡ text.now ++ replicate (greatest_host - length text.now) 0 }
{
    let mut bytes = [0; GREATEST_HOST];
    bytes[..text.len()].copy_from_slice(text);
    bytes
}
