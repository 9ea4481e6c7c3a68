//! What a world is made by.

use rh_http::KEEPALIVE;
use rh_keep::DEFAULT_LIFETIME;
use rh_record::Key;
use rh_sig::ranges::DEFAULT_TIMEOUT;
use rh_window::DEFAULT_WINDOW;

/// The numbers of a world, each named by its key, and whether it is a direct one. A direct world
/// uses none of the numbers.
#[derive(Clone, Copy, Debug, PartialEq, Eq)]
pub struct WorldConfig {
    /// Whether it is a direct world.
    pub direct: bool,
    /// The window of the client, in bytes: 8,192 to 262,144.
    pub cwin: u32,
    /// The window of the in proxies, likewise.
    pub iwin: u32,
    /// The window of the out proxies, likewise.
    pub owin: u32,
    /// The window of the server, likewise.
    pub swin: u32,
    /// The lifetime of an IN channel, in bytes: 131,072 to 2,147,483,648.
    pub ilife: u32,
    /// The lifetime of an OUT channel, likewise.
    pub olife: u32,
    /// The connection timeout of the in proxies, in milliseconds: 120,000 to 14,400,000.
    pub itime: u32,
    /// The connection timeout of the out proxies, likewise.
    pub otime: u32,
    /// The client's keepalive, in milliseconds: 0, which means 300,000, or 60,000 to 4,294,967,295.
    pub keep: u32,
    /// Whether settling opens an IN successor at the proxy of its predecessor, where it may.
    pub same: bool,
}

impl WorldConfig {
    ghost use Rattle.std.specs.Prelude.{◌≡◌};
    ghost use Rattle.rh_world.specs.Config.{AreInRange, direct_config, roles_config, with_number};

    /// A direct world, and the numbers that stand where no line sets them.
    pub fn direct() -> WorldConfig
        ensures numbers { result ≡ direct_config }
        ensures in_range { AreInRange result }
    {
        WorldConfig {
            direct: true,
            cwin: DEFAULT_WINDOW,
            iwin: DEFAULT_WINDOW,
            owin: DEFAULT_WINDOW,
            swin: DEFAULT_WINDOW,
            ilife: DEFAULT_LIFETIME,
            olife: DEFAULT_LIFETIME,
            itime: DEFAULT_TIMEOUT,
            otime: DEFAULT_TIMEOUT,
            keep: KEEPALIVE,
            same: false,
        }
    }

    /// A world of roles, and the numbers that stand where no line sets them.
    pub fn roles() -> WorldConfig
        ensures numbers { result ≡ roles_config }
        ensures in_range { AreInRange result }
    {
        WorldConfig {
            direct: false,
            ..WorldConfig::direct()
        }
    }

    /// These numbers, but that of the key is the value. A value that the key doesn't take changes
    /// nothing.
    pub fn with_number(self, key: Key, value: u32) -> WorldConfig
        ensures numbers { result ≡ with_number self key value }
        ensures in_range { AreInRange self → AreInRange result }
    {
        let mut config = self;
        if !key.takes(u64::from(value)) {
            return config;
        }
        match key {
            Key::Cwin => config.cwin = value,
            Key::Iwin => config.iwin = value,
            Key::Owin => config.owin = value,
            Key::Swin => config.swin = value,
            Key::Ilife => config.ilife = value,
            Key::Olife => config.olife = value,
            Key::Itime => config.itime = value,
            Key::Otime => config.otime = value,
            Key::Keep => config.keep = value,
            Key::Same => config.same = value == 1,
        }
        config
    }
}
