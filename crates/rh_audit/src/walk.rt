//! The RPC PDUs that a chain of legs carried.

ghost use Rattle.std.specs.Prelude.{◌≡◌, ◌<◌, ◌^◌, IfOk, length};
ghost use Rattle.rh_audit.specs.Audits.{prefixed};
ghost use Rattle.rh_audit.specs.Chains.{joined};
ghost use Rattle.rh_audit.specs.Links.{legs_of};
ghost use Rattle.rh_audit.specs.Walks.{all_pdus};

use crate::cursor::Cursor;
use crate::leg::pdu_pipe;
use crate::link::Link;
use crate::place::Place;
use crate::prefixed::Prefixed;
use std::alloc::{AllocError, Global};
use std::marker::Model;

/// The RPC PDUs that are left of a chain.
#[derive(Drop)]
pub(crate) struct Walk<'a> {
    cursor: Cursor<'a>,
    places: &'a [Place],
    links: &'a [Link<'a>],
}

impl<'a> Model for Walk<'a> {
    ghost use Rattle.std.specs.Prelude.{◌++◌};
    ghost use Rattle.rh_audit.specs.Cursors.{all_left_at};
    ghost use Rattle.rh_audit.specs.Links.{legs_of};
    ghost use Rattle.rh_audit.specs.Places.{AreBehind};
    ghost use Rattle.rh_audit.specs.Walks as walks;

    ghost Value = { walks.WalkLeft };

    ghost view = { λ a. record {
      pdus = all_left_at a.cursor.at a.cursor.bytes a.places.now
          ++ walks.all_pdus (legs_of a.links.now);
      frame = a.cursor.pdu;
    } };

    ghost invariant = { λ a. AreBehind a.cursor.at a.places.now };
}

/// The legs up to and with the first whose handover mark was not seen.
fn up_to_unmarked<'a>(links: &'a [Link<'a>]) -> &'a [Link<'a>]
    ensures { joined (legs_of links.now) ≡ all_pdus (legs_of result.now) }
{
    for i in 0..links.len() {
        if !links[i].marked {
            return &links[..i + 1];
        }
    }
    links
}

impl<'a> Walk<'a> {
    ghost use Rattle.std.specs.Prelude.{◌≡◌, ◌<◌, ◌^◌, IfOk, length};
    ghost use Rattle.rh_audit.specs.Chains.{joined};
    ghost use Rattle.rh_audit.specs.Links.{legs_of};
    ghost use Rattle.rh_audit.specs.Walks.{IsStep};

    /// All RPC PDUs of a chain, up to and with those of the first leg whose mark was not seen.
    pub(crate) fn new(alloc: Global, links: &'a [Link<'a>]) -> Walk<'a>
        ensures pdus { result.pdus ≡ joined (legs_of links.now) }
    {
        Walk {
            cursor: Cursor::new(alloc),
            places: &[],
            links: up_to_unmarked(links),
        }
    }

    /// The PDU that the last `next_pdu` found; empty before the first.
    pub(crate) fn frame(&self) -> &[u8]
        ensures { result.now ≡ self.now.frame }
    {
        self.cursor.pdu()
    }

    /// Finds the next PDU; `false` where none is left.
    ///
    /// Fails where there is no memory for a PDU that stands in more than one line.
    pub(crate) fn next_pdu(&mut self) -> Result<bool, AllocError>
        ensures { IfOk result (λ found. IsStep found self.old self.new) }
    {
        'links: loop {
            if let [place, behind @ ..] = self.places {
                self.places = behind;
                self.cursor.find(*place)?;
                return Ok(true);
            }
            let [link, behind @ ..] = self.links else {
                return Ok(false);
            };
            self.cursor.enter(link.lines, pdu_pipe(link.kind));
            self.places = link.places;
            self.links = behind;
        }
    }

    /// How many PDUs are left.
    fn count(&self) -> u32
        requires { length self.now.pdus < 2 ^ 32 }
        ensures { result ≡ length self.now.pdus }
    {
        let mut count = self.places.len();
        for link in self.links {
            count += link.places.len();
        }
        count as u32
    }
}

/// Whether what was seen on the far legs is a front of what was seen on the near ones, or at which
/// place it is not.
///
/// Fails where there is no memory for a PDU that stands in more than one line.
pub(crate) fn compare(far: Walk<'_>, near: Walk<'_>) -> Result<Prefixed, AllocError>
    requires far { length far.pdus < 2 ^ 32 }
    requires near { length near.pdus < 2 ^ 32 }
    ensures { IfOk result (λ told. told ≡ prefixed far.entry.pdus near.entry.pdus) }
{
    let mut far = far;
    let mut near = near;
    let mut place = 0;
    'pdus: loop {
        if !far.next_pdu()? {
            return Ok(Prefixed::Yes {
                far: place,
                near: place + near.count(),
            });
        }
        if !near.next_pdu()? || far.frame() != near.frame() {
            return Ok(Prefixed::No { place });
        }
        place += 1;
    }
}
