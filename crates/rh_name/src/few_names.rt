//! The names that a packet has on some pipes, each once.

use crate::words::name_word;
use rh_sig::Name;
use std::marker::Model;

/// How many pipes there are, and so the most names that a packet has.
pub const MOST: usize = 7;

/// At most seven names, each once.
#[derive(Drop)]
pub(crate) struct FewNames {
    names: [Name; MOST],
    len: usize,
}

impl Model for FewNames {
    ghost use Rattle.std.specs.Prelude.{◌≡◌, ◌≤◌, List, length, take};
    ghost use Rattle.rh_sig.specs.declared.name.Name.{Name};
    ghost use Rattle.rh_name.specs.declared.few_names.TheConstants.{MOST};

    ghost Value = { List Name };

    ghost view = { λ k. take k.len k.names };

    ghost invariant = { λ k. (k.len ≤ MOST) × (length k.names ≡ MOST) };
}

impl FewNames {
    ghost use Rattle.std.specs.Prelude.{◌≡◌, ◌≤◌, ◌<◌, ◌+◌, [], length};
    ghost use Rattle.rh_name.specs.Telling.{added, is_told};
    ghost use Rattle.rh_name.specs.declared.few_names.TheConstants.{MOST};

    /// No names.
    pub fn new() -> FewNames
        ensures { result ≡ [] }
    {
        FewNames {
            names: [Name::Ping; MOST],
            len: 0,
        }
    }

    /// Whether the name is one of these.
    #[tactic(auto, unfolding(crate::specs::Telling::is_told))]
    fn has(&self, name: Name) -> bool
        ensures { result ≡ is_told name self.now }
    {
        let word = name_word(name);
        self.as_slice().iter().any(|told| name_word(*told) == word)
    }

    /// Adds a name that isn't one of these, where there is one.
    #[tactic(auto, unfolding(crate::specs::Telling::added))]
    pub fn add(&mut self, name: Option<Name>)
        requires { length self.old < MOST }
        ensures names { self.new ≡ added self.old name }
        ensures one { length self.new ≤ length self.old + 1 }
    {
        let Some(name) = name else {
            return;
        };
        if self.has(name) {
            return;
        }
        self.names[self.len] = name;
        self.len += 1;
    }

    /// The names, in their order.
    pub fn as_slice(&self) -> &[Name]
        ensures { result.now ≡ self.now }
    {
        &self.names[..self.len]
    }
}
