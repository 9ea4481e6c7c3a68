//! The server that a proxy is to connect.

ghost use Rattle.std.specs.Prelude.{◌≡◌};
ghost use Rattle.rh_inproxy.specs.State.{pair_of};

use rh_http::Host;
use rh_told::Target;

/// The server of this host and port.
pub(crate) fn target_of(server: Option<(Host, u16)>) -> Option<Target>
    ensures { result ≡ pair_of server }
{
    match server {
        None => None,
        Some((host, port)) => Some(Target::new(host, port)),
    }
}
