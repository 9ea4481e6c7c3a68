//! The legs of a capture, tag by tag.

ghost use Rattle.std.specs.Prelude.{ℕ, IfOk};
ghost use Rattle.rh_audit.specs.Captures.{AreOfLeg, of_tag};
ghost use Rattle.rh_audit.specs.Pieces.{all_seen};
ghost use Rattle.rh_audit.specs.Reads.{IsReading};
ghost use Rattle.rh_audit.specs.Tags.{IsRising};

use crate::fault::AuditFault;
use crate::leg::read_leg;
use crate::pieces::Piece;
use crate::read_leg::ReadLeg;
use crate::sorting::first_run;
use rh_line::LegKind;
use std::alloc::{AllocError, Global};

/// A tag whose first packet was seen, and the kind of its leg.
#[derive(Clone, Copy)]
pub(crate) struct Begun {
    pub(crate) tag: u64,
    pub(crate) kind: LegKind,
}

/// The legs of each kind, and all of them, in the order of their tags.
#[derive(Drop)]
pub(crate) struct Legs<'a> {
    pub(crate) client_in: Vec<ReadLeg<'a>>,
    pub(crate) in_server: Vec<ReadLeg<'a>>,
    pub(crate) client_out: Vec<ReadLeg<'a>>,
    pub(crate) out_server: Vec<ReadLeg<'a>>,
    pub(crate) begun: Vec<Begun>,
}

impl<'a> Legs<'a> {
    ghost use Rattle.std.specs.Prelude.{◌≡◌, ◌++◌, [], OnOk, option_to_list};
    ghost use Rattle.rh_line.specs.declared.leg.LegKind.{LegKind};
    ghost use Rattle.rh_audit.specs.Reads.{begun_if, read_if, read_in};

    /// No leg.
    fn new(alloc: Global) -> Legs<'a>
        ensures each { (kind : LegKind) → read_in kind result ≡ [] }
        ensures begun { result.begun.items ≡ [] }
    {
        Legs {
            client_in: Vec::new(alloc),
            in_server: Vec::new(alloc),
            client_out: Vec::new(alloc),
            out_server: Vec::new(alloc),
            begun: Vec::new(alloc),
        }
    }

    /// Adds the leg of a later tag, where its first packet was seen.
    fn add(&mut self, tag: u64, kind: LegKind, leg: Option<ReadLeg<'a>>) -> Result<(), AllocError>
        ensures each { OnOk result ((any : LegKind) → read_in any self.new
            ≡ read_in any self.old ++ read_if any kind (option_to_list leg.entry)) }
        ensures begun { OnOk result (self.new.begun.items
            ≡ self.old.begun.items ++ begun_if tag kind leg.entry) }
    {
        let Some(leg) = leg else {
            return Ok(());
        };
        match kind {
            LegKind::ClientIn => self.client_in.push(leg)?,
            LegKind::InServer => self.in_server.push(leg)?,
            LegKind::ClientOut => self.client_out.push(leg)?,
            LegKind::OutServer => self.out_server.push(leg)?,
        }
        self.begun.push(Begun { tag, kind })?;
        Ok(())
    }
}

/// Reads the lines of a capture, which come by tag, and tells where their streams are broken.
///
/// Fails where there is no memory.
pub(crate) fn read_legs<'a>(
    alloc: Global,
    lines: &'a [Piece<'a>],
    faults: &mut Vec<AuditFault>,
) -> Result<Legs<'a>, AllocError>
    requires rising { IsRising (all_seen lines.now) }
    requires legs { (tag : ℕ) → AreOfLeg (of_tag tag (all_seen lines.now)) }
    ensures { IfOk result (λ legs. IsReading (all_seen lines.now) legs
        faults.old.items faults.new.items) }
{
    let mut legs = Legs::new(alloc);
    let mut room = Vec::new(alloc);
    let mut from = 0;
    'tags: while from < lines.len() {
        let (_, rest) = lines.split_at(from);
        let run = first_run(rest);
        let leg = read_leg(alloc, run.tag, run.kind, run.lines, &mut room, faults)?;
        legs.add(run.tag, run.kind, leg)?;
        from += run.lines.len();
    }
    Ok(legs)
}
