//! The server that a proxy is to connect.

use rh_http::Host;
use std::marker::Model;

/// A server: its host and its port. Contracts see the text of the host.
#[derive(Drop)]
pub struct Target {
    host: Host,
    port: u16,
}

impl Model for Target {
    ghost use Rattle.std.specs.Prelude.{List, ℕ};
    ghost use Rattle.rh_http.specs.Requests.{host_text};

    ghost Value = { List ℕ × ℕ };

    ghost view = { λ a. (host_text a.host, a.port) };
}

impl Target {
    ghost use Rattle.std.specs.Prelude.{◌≡◌};
    ghost use Rattle.rh_http.specs.Requests.{host_text};
    ghost use Rattle.rh_http.specs.Hosts.{IsHost};

    /// The server of this host and port.
    pub fn new(host: Host, port: u16) -> Target
        ensures { result ≡ (host_text host, port) }
    {
        Target { host, port }
    }

    /// The host.
    pub fn host(&self) -> &[u8]
        ensures text { result.now ≡ self.now.0 }
        ensures sound { IsHost result.now }
    {
        self.host.text()
    }

    /// The port.
    pub fn port(&self) -> u16
        ensures { result ≡ self.now.1 }
    {
        self.port
    }
}
