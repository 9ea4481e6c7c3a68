//! Numbers that are kept for legs.

use rh_line::{Leg, LegKind};
use std::alloc::{AllocError, Global};
use std::collections::BTreeMap;

/// A number for some legs, by the number of the leg in a map for each kind.
#[derive(Drop)]
pub(crate) struct Numbers {
    client_out: BTreeMap<u32, u64>,
    out_server: BTreeMap<u32, u64>,
    client_in: BTreeMap<u32, u64>,
    in_server: BTreeMap<u32, u64>,
}

impl Numbers {
    ghost use Rattle.std.specs.Prelude.{◌≡◌, if◌then◌else◌, OnOk, OnErr, None, Some};
    ghost use Rattle.rh_line.specs.declared.leg.Leg.{Leg};
    ghost use Rattle.rh_capture.specs.Legs.{same_leg};
    ghost use Rattle.rh_capture.specs.Numbers.{number_of};

    /// No leg has a number.
    pub(crate) fn new(alloc: Global) -> Numbers
        ensures { (leg : Leg) → number_of result leg ≡ None }
    {
        Numbers {
            client_out: BTreeMap::new(alloc),
            out_server: BTreeMap::new(alloc),
            client_in: BTreeMap::new(alloc),
            in_server: BTreeMap::new(alloc),
        }
    }

    /// The number of a leg.
    pub(crate) fn get(&self, leg: Leg) -> Option<u64>
        ensures { result ≡ number_of self.now leg }
    {
        let numbers = match leg.kind {
            LegKind::ClientOut => &self.client_out,
            LegKind::OutServer => &self.out_server,
            LegKind::ClientIn => &self.client_in,
            LegKind::InServer => &self.in_server,
        };
        numbers.get(&leg.number).copied()
    }

    /// A leg gets a number.
    pub(crate) fn put(&mut self, leg: Leg, number: u64) -> Result<(), AllocError>
        ensures ok { OnOk result ((other : Leg) → number_of self.new other
            ≡ (if same_leg leg other then Some number else number_of self.old other)) }
        ensures err { OnErr result ((other : Leg)
            → number_of self.new other ≡ number_of self.old other) }
    {
        match leg.kind {
            LegKind::ClientOut => self.client_out.insert(leg.number, number)?,
            LegKind::OutServer => self.out_server.insert(leg.number, number)?,
            LegKind::ClientIn => self.client_in.insert(leg.number, number)?,
            LegKind::InServer => self.in_server.insert(leg.number, number)?,
        };
        Ok(())
    }
}
