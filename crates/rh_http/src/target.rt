//! The target of a request: the path of a proxy, and the server behind it.

ghost use Rattle.std.specs.Prelude.{◌≡◌, ◌++◌, ◌∷◌, ◌==◌, ℕ, List, IsTrue, ◌↔◌, length, take, IfNone, IfSome, MatchOption};
ghost use Rattle.std.specs.List.{before_first};
ghost use Rattle.rh_http.specs.Requests.{path_of, IsPath, IsServer, IsTarget, HasTarget, host_text};

use crate::host::Host;
use crate::numbers::read_port;
use memchr::memchr;

/// What stands between the path of a target and its query.
pub const QUESTION_MARK: u8 = b'?';
/// What stands between the host and the port of a server.
pub const COLON: u8 = b':';

/// The path of a proxy, and that of one which asks for a certificate, in small letters.
const PATH: &[u8] = b"/rpc/rpcproxy.dll";

const CERTIFICATE_PATH: &[u8] = b"/rpcwithcert/rpcproxy.dll";

/// What stands before the first such byte and what behind it, where there is one.
fn split_first(text: &[u8], byte: u8) -> Option<(&[u8], &[u8])>
    ensures none { IfNone result (before_first (λ c. c == byte) text.now ≡ text.now) }
    ensures some { IfSome result (λ parts. (before_first (λ c. c == byte) text.now ≡ parts.0.now)
        × (text.now ≡ parts.0.now ++ byte ∷ parts.1.now)) }
{
    let place = memchr(byte, text)?;
    let (front, rest) = text.split_at(place);
    let (_, behind) = rest.split_at(1);
    Some((front, behind))
}

/// Whether the target has the path of a proxy.
pub fn has_path(target: &[u8]) -> bool
    ensures { IsTrue result ↔ IsPath (path_of target.now) }
{
    let path = match split_first(target, QUESTION_MARK) {
        Some((path, _)) => path,
        None => target,
    };
    path.eq_ignore_ascii_case(PATH) || path.eq_ignore_ascii_case(CERTIFICATE_PATH)
}

/// The host and the port that a query names.
fn read_server(query: &[u8]) -> Option<(Host, u16)>
    ensures { MatchOption result ((host : List ℕ) (port : ℕ) → ¬ IsServer query.now host port)
        (λ server. IsServer query.now (host_text server.0) server.1) }
{
    let (host, port) = split_first(query, COLON)?;
    let port = read_port(port)?;
    match Host::new(host) {
        Ok(host) => Some((host, port)),
        Err(_) => None,
    }
}

/// The host and the port behind the first question mark of a target.
pub fn read_target(target: &[u8]) -> Option<(Host, u16)>
    ensures { MatchOption result (¬ HasTarget target.now)
        (λ server. IsTarget target.now (host_text server.0) server.1) }
{
    let (_, query) = split_first(target, QUESTION_MARK)?;
    read_server(query)
}
