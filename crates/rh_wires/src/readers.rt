//! Which in proxy reads which leg of the client.

ghost use Rattle.std.specs.Prelude.{◌≡◌, [], OnOk};
ghost use Rattle.rh_wires.specs.Readers as seen;

use crate::numbered::grow;
use std::alloc::{AllocError, Global};
use std::marker::Model;

/// For each IN leg of the client the number of the in proxy that reads it; 0 where none does.
#[derive(Drop)]
pub struct Readers {
    proxies: Vec<u32>,
}

impl Model for Readers {
    ghost use Rattle.std.specs.Prelude.{List, ℕ};

    ghost Value = { List ℕ };

    ghost view = { λ a. a.proxies.items };
}

impl Readers {
    /// No legs.
    pub fn new(alloc: Global) -> Readers
        ensures { result ≡ [] }
    {
        Readers {
            proxies: Vec::new(alloc),
        }
    }

    /// The number of the in proxy that reads a leg; 0 where none does.
    pub fn of(&self, number: u32) -> u32
        ensures { result ≡ seen.reader_of self.now number }
    {
        let at = number as usize;
        if at < self.proxies.len() {
            self.proxies[at]
        } else {
            0
        }
    }

    /// An in proxy reads a leg. Fails where there is no memory.
    pub fn set(&mut self, number: u32, proxy: u32) -> Result<(), AllocError>
        ensures { OnOk result (self.new ≡ seen.with_reader self.old number proxy) }
    {
        let at = number as usize;
        grow(&mut self.proxies, at + 1)?;
        self.proxies[at] = proxy;
        Ok(())
    }
}
