//! The cast of the real roles.

ghost use Rattle.std.specs.Prelude.{◌≡◌};
ghost use Rattle.rh_http.specs.Hosts.{IsHost};
ghost use Rattle.rh_http.specs.Requests.{host_text};
ghost use Rattle.rh_world.specs.Hosts as hosts;

use crate::config::WorldConfig;
use rh_client::{ClientConfig, ClientRole};
use rh_company::Cast;
use rh_http::Host;
use rh_inproxy::{InProxyConfig, InProxyRole};
use rh_outproxy::{OutProxyConfig, OutProxyRole};
use rh_record::Key;
use rh_rts::Cookie;
use rh_server::ServerRole;
use rh_shell::Shell;
use std::alloc::{AllocError, Global};
use std::marker::Model;

/// The port of the server.
pub const PORT: u16 = 593;

/// The address of the client, as the in proxies see it.
pub const CLIENT_ADDRESS: [u8; 4] = [127, 0, 0, 1];

/// How the nodes of the four roles are made, by the numbers of a world.
#[derive(Drop)]
pub struct Roles {
    config: WorldConfig,
}

impl Model for Roles {
    ghost use Rattle.rh_world.specs.declared.config.WorldConfig.{WorldConfig};
    ghost use Rattle.rh_world.specs.Config.{AreInRange};

    ghost Value = { WorldConfig };

    ghost view = { λ a. a.config };

    ghost invariant = { λ a. AreInRange a.config };
}

/// The host of a name that a host may have.
fn host(name: &[u8]) -> Host
    requires { IsHost name.now }
    ensures { host_text result ≡ name.now }
{
    match Host::new(name) {
        Ok(host) => host,
        Err(_) => unreachable!(),
    }
}

/// The host of the server.
#[tactic(auto, using(rh_http::proofs::HostLemmas::host_once, crate::specs::Hosts::server_is_host))]
fn server_host() -> Host
    ensures { result ≡ hosts.server_host }
{
    host(b"server")
}

/// The host of the client's proxy.
#[tactic(auto, using(rh_http::proofs::HostLemmas::host_once, crate::specs::Hosts::proxy_is_host))]
fn proxy_host() -> Host
    ensures { result ≡ hosts.proxy_host }
{
    host(b"proxy")
}

impl Roles {
    ghost use Rattle.rh_world.specs.Config.{AreInRange, with_number};

    /// The roles with these numbers.
    pub fn new(config: WorldConfig) -> Roles
        requires { AreInRange config }
        ensures { result ≡ config }
    {
        Roles { config }
    }

    /// The numbers.
    pub fn config(&self) -> WorldConfig
        ensures numbers { result ≡ self.now }
        ensures in_range { AreInRange result }
    {
        self.config
    }

    /// The number of the key is set. A value that the key doesn't take changes nothing.
    pub fn set(&mut self, key: Key, value: u32)
        ensures { self.new ≡ with_number self.old key value }
    {
        self.config = self.config.with_number(key, value);
    }
}

impl Cast for Roles {
    ghost use Rattle.rh_world.specs.Roles as seen;

    type Client = ClientRole;

    type Server = ServerRole;

    type InProxy = InProxyRole;

    type OutProxy = OutProxyRole;

    ghost client = { seen.client };

    ghost server = { seen.server };

    ghost in_proxy = { seen.in_proxy };

    ghost out_proxy = { seen.out_proxy };

    fn client(
        &self,
        alloc: Global,
        connection: Cookie,
        group: Cookie,
    ) -> Result<Shell<ClientRole>, AllocError> {
        let config = ClientConfig {
            connection,
            group,
            window: self.config.cwin,
            lifetime: self.config.ilife,
            keepalive: self.config.keep,
            host: server_host(),
            port: PORT,
            proxy_host: proxy_host(),
        };
        let role = ClientRole::new(alloc, config)?;
        Shell::new(alloc, role, rh_client::ROOMS)
    }

    fn server(&self, alloc: Global) -> Result<Shell<ServerRole>, AllocError> {
        let role = ServerRole::new(alloc, self.config.swin)?;
        Shell::new(alloc, role, rh_server::ROOMS)
    }

    fn in_proxy(&self, alloc: Global, number: u32) -> Result<Shell<InProxyRole>, AllocError> {
        let config = InProxyConfig {
            number,
            window: self.config.iwin,
            timeout: self.config.itime,
            address: CLIENT_ADDRESS,
        };
        let role = InProxyRole::new(alloc, config)?;
        Shell::new(alloc, role, rh_inproxy::ROOMS)
    }

    fn out_proxy(&self, alloc: Global, number: u32) -> Result<Shell<OutProxyRole>, AllocError> {
        let config = OutProxyConfig {
            number,
            window: self.config.owin,
            lifetime: self.config.olife,
            timeout: self.config.otime,
        };
        let role = OutProxyRole::new(alloc, config)?;
        Shell::new(alloc, role, rh_outproxy::ROOMS)
    }
}
