//! What a client is to know before it opens a virtual connection.

use crate::host::Host;
use rh_keep::DEFAULT_LIFETIME;
use rh_rts::Cookie;
use rh_window::DEFAULT_WINDOW;

/// A client's keepalive where nothing else is said, in milliseconds (profile).
pub const KEEPALIVE: u32 = 300_000;

/// A client's virtual connection: its cookies, its limits, its server and its proxy.
#[derive(Clone, Copy, Debug, PartialEq, Eq)]
pub struct ClientConfig {
    /// The cookie of the virtual connection (MS-RPCH 2.2.3.1).
    pub connection: Cookie,
    /// The association group id (MS-RPCH 2.2.3.5).
    pub group: Cookie,
    /// The receive window of the client, in bytes: 8,192 to 262,144.
    pub window: u32,
    /// The lifetime of an IN channel, in bytes: 131,072 to 2,147,483,648.
    pub lifetime: u32,
    /// The client's keepalive, in milliseconds: 60,000 and above, or 0 for 300,000.
    pub keepalive: u32,
    /// The server.
    pub host: Host,
    /// The port of the server: 1 to 65,535.
    pub port: u16,
    /// The proxy.
    pub proxy_host: Host,
}

impl ClientConfig {
    ghost use Rattle.std.specs.Prelude.{◌≡◌};
    ghost use Rattle.rh_keep.specs.Lifetimes.{IsLifetime};
    ghost use Rattle.rh_window.specs.Sides.{IsWindow};

    /// A virtual connection of these cookies to a port of the host by the proxy, with the window,
    /// the lifetime and the keepalive that stand where nothing else is said (profile).
    pub fn new(
        connection: Cookie,
        group: Cookie,
        host: Host,
        port: u16,
        proxy_host: Host,
    ) -> ClientConfig
        ensures cookies { (result.connection ≡ connection) × (result.group ≡ group) }
        ensures server { (result.host ≡ host) × (result.port ≡ port) }
        ensures proxy { result.proxy_host ≡ proxy_host }
        ensures window { (result.window ≡ DEFAULT_WINDOW) × IsWindow result.window }
        ensures lifetime { (result.lifetime ≡ DEFAULT_LIFETIME) × IsLifetime result.lifetime }
        ensures keepalive { result.keepalive ≡ KEEPALIVE }
    {
        ClientConfig {
            connection,
            group,
            window: DEFAULT_WINDOW,
            lifetime: DEFAULT_LIFETIME,
            keepalive: KEEPALIVE,
            host,
            port,
            proxy_host,
        }
    }
}
