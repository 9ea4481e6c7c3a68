//! Addresses as words: a host, a colon and a port.

ghost use Rattle.std.specs.Prelude.{◌≡◌, ◌++◌, ◌∷◌, ◌==◌, ◌≤◌, ℕ, List, IfNone, IfSome, IfOk, MatchOption, string_bytes, take, vec_len};
ghost use Rattle.std.specs.List.{before_first};
ghost use Rattle.std.specs.Str.{IsUtf8};
ghost use Rattle.rh_text.specs.Writing.{Writes};
ghost use Rattle.rh_http.specs.Requests.{host_text};
ghost use Rattle.rh_role_words.specs.declared.addresses.HostPort.{HostPort as Named};
ghost use Rattle.rh_role_words.specs.Forms.{AreHostPorts, AreJoined, AreNoHostPorts, AreNotJoined, IsHostPort};
ghost use Rattle.rh_role_words.specs.Statuses.{address_text};

use memchr::memchr;
use rh_http::Host;
use rh_io::NoMemory;
use rh_net::Address;
use rh_text::{Part, read_number, write_parts};
use std::alloc::{AllocError, Global};
use std::str;

/// What stands between a host and its port.
pub const COLON: u8 = b':';
/// The least port, and the greatest.
const LEAST_PORT: u64 = 1;

const GREATEST_PORT: u64 = 65_535;
/// What stands between two addresses.
pub const COMMA: u8 = b',';
/// The most addresses of a word, behind the first.
pub const MOST_MORE: usize = 15;

/// A host and a port, as a word names them.
#[derive(Clone, Copy, Debug, PartialEq, Eq)]
pub struct HostPort {
    pub host: Host,
    /// 1 to 65,535.
    pub port: u16,
}

impl HostPort {
    /// The address that a net takes.
    pub fn address(&self) -> Address
        ensures host { take result.len result.host ≡ host_text self.now.host }
        ensures port { result.port ≡ self.now.port }
    {
        let Some(address) = Address::new(self.host.text(), self.port) else {
            unreachable!()
        };
        address
    }
}

/// The addresses of a word: the first one, and those behind it.
#[derive(Drop)]
pub struct HostPorts {
    pub first: HostPort,
    pub more: Vec<HostPort>,
}

impl HostPorts {
    ghost use Rattle.rh_role_words.specs.Making.{NamesEach, all_of};

    /// The addresses that a net takes, in order. Fails where there is no memory.
    pub fn addresses(&self, alloc: Global) -> Result<Vec<Address>, NoMemory>
        ensures { IfOk result (λ addresses. NamesEach addresses.items (all_of self.now)) }
    {
        let mut addresses = Vec::new(alloc);
        addresses.push(self.first.address())?;
        for at in 0..self.more.len() {
            addresses.push(self.more[at].address())?;
        }
        Ok(addresses)
    }
}

/// Appends `at`, a space, the host, a colon and the port; nothing where the host is no text.
///
/// Fails where there is no memory for it; a front of it may stand in `out` then.
pub fn write_address(at: &Address, out: &mut String) -> Result<(), AllocError>
    ensures { IsUtf8 (take at.now.len at.now.host) → Writes (address_text at.now) result
        (string_bytes out.old) (string_bytes out.new) }
{
    let Ok(host) = str::from_utf8(at.host()) else {
        return Ok(());
    };
    let port = Part::Number(u64::from(at.port));
    write_parts(
        &[Part::Text("at "), Part::Text(host), Part::Text(":"), port],
        out,
    )
}

/// What stands before the first such byte and what behind it, where there is one.
fn split_first(text: &[u8], byte: u8) -> Option<(&[u8], &[u8])>
    ensures none { IfNone result (before_first (λ c. c == byte) text.now ≡ text.now) }
    ensures some { IfSome result (λ parts. (before_first (λ c. c == byte) text.now ≡ parts.0.now)
        × (text.now ≡ parts.0.now ++ byte ∷ parts.1.now)) }
{
    let place = memchr(byte, text)?;
    let (front, rest) = text.split_at(place);
    let (_, behind) = rest.split_at(1);
    Some((front, behind))
}

/// The host and the port of a word; `None` where it is not a host of 1 to 255 letters, digits,
/// `-`, `.`, `_` and `@`, a colon, and a port from 1 to 65,535 with no leading zero.
pub fn host_port_of(text: &[u8]) -> Option<HostPort>
    ensures { MatchOption result ((address : Named) → ¬ IsHostPort text.now address)
        (λ address. IsHostPort text.now address) }
{
    let (host, port) = split_first(text, COLON)?;
    let port = read_number(port, LEAST_PORT, GREATEST_PORT)?;
    match Host::new(host) {
        Ok(host) => Some(HostPort {
            host,
            port: port as u16,
        }),
        Err(_) => None,
    }
}

/// The addresses of a word, 1 to 16 with commas between; `None` where it has another form. Fails
/// where there is no memory.
pub fn host_ports_of(alloc: Global, text: &[u8]) -> Result<Option<HostPorts>, NoMemory>
    ensures { IfOk result (λ found. MatchOption found (AreNoHostPorts text.now)
        (λ addresses. AreHostPorts text.now addresses)) }
{
    match split_first(text, COMMA) {
        Some((first, behind)) => {
            let Some(first) = host_port_of(first) else {
                return Ok(None);
            };
            match more_of(alloc, behind)? {
                Some(more) => Ok(Some(HostPorts { first, more })),
                None => Ok(None),
            }
        }
        None => match host_port_of(text) {
            Some(first) => {
                let more = Vec::new(alloc);
                Ok(Some(HostPorts { first, more }))
            }
            None => Ok(None),
        },
    }
}

/// The addresses behind the first, 1 to 15 with commas between.
fn more_of(alloc: Global, text: &[u8]) -> Result<Option<Vec<HostPort>>, NoMemory>
    ensures { IfOk result (λ found. MatchOption found (AreNotJoined text.now MOST_MORE)
        (λ more. AreJoined text.now more.items × (vec_len more ≤ MOST_MORE))) }
{
    let mut more = Vec::new(alloc);
    let mut rest = text;
    'more: for at in 0..MOST_MORE {
        let Some((one, behind)) = split_first(rest, COMMA) else {
            return match host_port_of(rest) {
                Some(last) => {
                    more.push(last)?;
                    Ok(Some(more))
                }
                None => Ok(None),
            };
        };
        let Some(one) = host_port_of(one) else {
            return Ok(None);
        };
        more.push(one)?;
        rest = behind;
    }
    Ok(None)
}
