//! Words that are written again as they are.

use std::alloc::{AllocError, Global};
use std::marker::Model;

/// A text of ASCII alone. Contracts see its bytes.
#[derive(Drop)]
pub struct Words {
    bytes: Vec<u8>,
}

impl Model for Words {
    ghost use Rattle.std.specs.Prelude.{List, ℕ, IsAscii};

    ghost Value = { List ℕ };

    ghost view = { λ a. a.bytes.items };

    ghost invariant = { λ a. IsAscii a.bytes.items };
}

impl Words {
    ghost use Rattle.std.specs.Prelude.{◌≡◌, IfOk, IsAscii};

    /// A copy of a text of ASCII alone.
    ///
    /// Fails where there is no memory for it.
    pub fn copy(alloc: Global, text: &[u8]) -> Result<Words, AllocError>
        requires { IsAscii text.now }
        ensures { IfOk result (λ words. words ≡ text.now) }
    {
        let bytes = Vec::from_slice(alloc, text)?;
        Ok(Words { bytes })
    }

    /// The text.
    pub fn as_slice(&self) -> &[u8]
        ensures text { result.now ≡ self.now }
        ensures ascii { IsAscii result.now }
    {
        &self.bytes
    }
}
