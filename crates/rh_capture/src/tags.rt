//! The tags of legs.

use crate::numbers::Numbers;
use rh_line::Leg;
use std::alloc::{AllocError, Global};
use std::marker::Model;

/// The legs that have a line so far, in the order in which each first had one. Their tags count
/// from 1 in this order.
#[derive(Drop)]
pub struct Tags {
    legs: Vec<Leg>,
    tags: Numbers,
}

impl Model for Tags {
    ghost use Rattle.std.specs.Prelude.{List};
    ghost use Rattle.rh_line.specs.declared.leg.Leg.{Leg};
    ghost use Rattle.rh_capture.specs.Numbers.{AreTags};

    ghost Value = { List Leg };

    ghost view = { λ a. a.legs.items };

    ghost invariant = { λ a. AreTags a.legs.items a.tags };
}

impl Tags {
    ghost use Rattle.std.specs.Prelude.{◌≡◌, ◌+◌, ◌++◌, [], ◌∷◌, IfOk, OnOk, None, length};
    ghost use Rattle.rh_capture.specs.Legs.{tag_of, with_leg};
    ghost use Rattle.rh_capture.specs.Numbers.{tag_among};

    /// No leg has a line.
    pub fn new(alloc: Global) -> Tags
        ensures { result ≡ [] }
    {
        Tags {
            legs: Vec::new(alloc),
            tags: Numbers::new(alloc),
        }
    }

    /// The tag of a leg that has a line: it gets one where it has none yet.
    ///
    /// Fails where there is no memory.
    pub fn tag(&mut self, leg: Leg) -> Result<u64, AllocError>
        ensures tag { IfOk result (λ tag. tag ≡ tag_of self.old leg) }
        ensures legs { OnOk result (self.new ≡ with_leg self.old leg) }
    {
        match self.tags.get(leg) {
            Some(tag) => Ok(tag),
            None => self.add(leg),
        }
    }

    /// The next leg gets its tag.
    fn add(&mut self, leg: Leg) -> Result<u64, AllocError>
        requires { tag_among 1 self.old leg ≡ None }
        ensures tag { IfOk result (λ tag. tag ≡ length self.old + 1) }
        ensures legs { OnOk result (self.new ≡ self.old ++ leg ∷ []) }
    {
        self.legs.reserve(1)?;
        let tag = self.legs.len() as u64 + 1;
        self.tags.put(leg, tag)?;
        let Ok(()) = self.legs.push(leg) else {
            unreachable!()
        };
        Ok(tag)
    }
}
