//! What the nodes of a role are made with.

ghost use Rattle.std.specs.Prelude.{◌≡◌, ℕ, ◌≤◌, IfOk, slice_get, Some};
ghost use Rattle.rh_inproxy.specs.declared.state.InProxyConfig.{InProxyConfig};
ghost use Rattle.rh_outproxy.specs.declared.state.OutProxyConfig.{OutProxyConfig};
ghost use Rattle.rh_inproxy.specs.State.{IsConfig};
ghost use Rattle.rh_window.specs.Sides.{IsWindow};
ghost use Rattle.rh_sig.specs.Values.{IsLifetime, IsTimeout};

use crate::addresses::HostPort;
use rh_http::{ClientConfig, Host, KEEPALIVE};
use rh_inproxy::InProxyConfig;
use rh_io::NoMemory;
use rh_keep::DEFAULT_LIFETIME;
use rh_outproxy::OutProxyConfig;
use rh_rts::Cookie;
use rh_server::ServerConfig;
use rh_sig::ranges::DEFAULT_TIMEOUT;
use rh_window::DEFAULT_WINDOW;
use std::alloc::Global;

/// The address of a client that a running in proxy tells: it knows none.
const UNKNOWN_ADDRESS: [u8; 4] = [0; 4];

/// The numbers of a node.
#[derive(Clone, Copy, Debug)]
pub struct Limits {
    /// The size of each receive window, in bytes: 8,192 to 262,144.
    pub window: u32,
    /// The lifetime of a channel, in bytes: 131,072 to 2,147,483,648.
    pub lifetime: u32,
    /// The connection timeout of a proxy, in milliseconds: 120,000 to 14,400,000.
    pub timeout: u32,
    /// The keepalive of a client, in milliseconds: 60,000 and above, or 0 for 300,000.
    pub keepalive: u32,
    ghost is_window: { IsWindow window },
    ghost is_lifetime: { IsLifetime lifetime },
    ghost is_timeout: { IsTimeout timeout },
}

impl Limits {
    ghost use Rattle.rh_role_words.specs.Making.{in_proxy_of, numbered, out_proxy_of};

    /// The numbers that a role has where nothing else is said (profile).
    pub fn by_default() -> Limits
        ensures window { result.window ≡ DEFAULT_WINDOW }
        ensures lifetime { result.lifetime ≡ DEFAULT_LIFETIME }
        ensures timeout { result.timeout ≡ DEFAULT_TIMEOUT }
        ensures keepalive { result.keepalive ≡ KEEPALIVE }
    {
        Limits {
            window: DEFAULT_WINDOW,
            lifetime: DEFAULT_LIFETIME,
            timeout: DEFAULT_TIMEOUT,
            keepalive: KEEPALIVE,
        }
    }

    /// What a client is made with, by the cookies of its connection and of its group, its server
    /// and the host of its proxies.
    pub fn client(
        &self,
        cookies: (Cookie, Cookie),
        server: HostPort,
        proxy_host: Host,
    ) -> ClientConfig
        ensures can_make { IsWindow result.window }
        ensures cookies { (result.connection ≡ cookies.0) × (result.group ≡ cookies.1) }
        ensures server { (result.host ≡ server.host) × (result.port ≡ server.port) }
        ensures proxy { result.proxy_host ≡ proxy_host }
        ensures limits { (result.window ≡ self.now.window) × (result.lifetime ≡ self.now.lifetime)
            × (result.keepalive ≡ self.now.keepalive) }
    {
        let (connection, group) = cookies;
        ClientConfig {
            connection,
            group,
            window: self.window,
            lifetime: self.lifetime,
            keepalive: self.keepalive,
            host: server.host,
            port: server.port,
            proxy_host,
        }
    }

    /// What a server is made with.
    pub fn server(&self) -> ServerConfig
        ensures can_make { IsWindow result.window }
        ensures limits { result.window ≡ self.now.window }
    {
        ServerConfig {
            window: self.window,
        }
    }

    fn in_proxy(&self, number: u32) -> InProxyConfig
        requires { 1 ≤ number }
        ensures can_make { IsConfig result }
        ensures limits { result ≡ in_proxy_of self.now number }
    {
        InProxyConfig {
            number,
            window: self.window,
            timeout: self.timeout,
            address: UNKNOWN_ADDRESS,
        }
    }

    fn out_proxy(&self, number: u32) -> OutProxyConfig
        requires { 1 ≤ number }
        ensures can_make { (1 ≤ result.number) × IsWindow result.window
            × IsLifetime result.lifetime × IsTimeout result.timeout }
        ensures limits { result ≡ out_proxy_of self.now number }
    {
        OutProxyConfig {
            number,
            window: self.window,
            lifetime: self.lifetime,
            timeout: self.timeout,
        }
    }

    /// What the nodes of an in proxy are made with, the one of channel 1 first. Fails where there
    /// is no memory.
    pub fn in_proxies(&self, alloc: Global, count: u32) -> Result<Vec<InProxyConfig>, NoMemory>
        ensures can_make { IfOk result (λ configs. (at : ℕ) (config : InProxyConfig)
            → slice_get configs.items at ≡ Some config → IsConfig config) }
        ensures each { IfOk result (λ configs.
            configs.items ≡ numbered (in_proxy_of self.now) count) }
    {
        let mut configs = Vec::new(alloc);
        for before in 0..count {
            configs.push(self.in_proxy(before.saturating_add(1)))?;
        }
        Ok(configs)
    }

    /// What the nodes of an out proxy are made with, likewise.
    pub fn out_proxies(&self, alloc: Global, count: u32) -> Result<Vec<OutProxyConfig>, NoMemory>
        ensures can_make { IfOk result (λ configs. (at : ℕ) (config : OutProxyConfig)
            → slice_get configs.items at ≡ Some config
            → (1 ≤ config.number) × IsWindow config.window × IsLifetime config.lifetime
            × IsTimeout config.timeout) }
        ensures each { IfOk result (λ configs.
            configs.items ≡ numbered (out_proxy_of self.now) count) }
    {
        let mut configs = Vec::new(alloc);
        for before in 0..count {
            configs.push(self.out_proxy(before.saturating_add(1)))?;
        }
        Ok(configs)
    }
}
