//! What is held of each stream.

ghost use Rattle.std.specs.Prelude.{◌≡◌};
ghost use Rattle.rh_story.specs.Streams.{bytes_in};

use std::alloc::{AllocError, Global};
use std::collections::BTreeMap;
use std::marker::Model;

/// The bytes of items that are not whole yet, by the keys of their streams.
#[derive(Drop)]
pub(crate) struct Held {
    streams: BTreeMap<[u32; 3], Vec<u8>>,
}

impl Model for Held {
    ghost use Rattle.std.specs.Prelude.{List, ℕ};
    ghost use Rattle.rh_story.specs.Streams.{seen_as};

    ghost Value = { List (List ℕ × List ℕ) };

    ghost view = { λ a. seen_as (λ bytes. bytes.items) a.streams.entries };
}

/// The bytes, or none.
fn or_none(alloc: Global, bytes: Option<Vec<u8>>) -> Vec<u8>
    ensures { result.items ≡ bytes_in (λ bytes. bytes.items) bytes }
{
    match bytes {
        Some(bytes) => bytes,
        None => Vec::new(alloc),
    }
}

impl Held {
    ghost use Rattle.std.specs.Prelude.{◌≡◌, [], IfOk, OnOk};
    ghost use Rattle.rh_story.specs.Streams.{held_of, with_held};

    /// Nothing is held.
    pub fn new(alloc: Global) -> Held
        ensures { result ≡ [] }
    {
        Held {
            streams: BTreeMap::new(alloc),
        }
    }

    /// Takes out what is held of a stream.
    ///
    /// Fails where there is no memory for its place.
    pub fn take(&mut self, alloc: Global, key: [u32; 3]) -> Result<Vec<u8>, AllocError>
        ensures bytes { IfOk result (λ bytes. bytes.items ≡ held_of self.old key) }
        ensures out { OnOk result (self.new ≡ with_held self.old key []) }
    {
        let before = self.streams.insert(key, Vec::new(alloc))?;
        Ok(or_none(alloc, before))
    }

    /// Holds these bytes of a stream, in place of what was held of it.
    ///
    /// Fails where there is no memory for its place.
    pub fn put(&mut self, key: [u32; 3], bytes: Vec<u8>) -> Result<(), AllocError>
        ensures { OnOk result (self.new ≡ with_held self.old key bytes.items) }
    {
        self.streams.insert(key, bytes)?;
        Ok(())
    }
}
