//! The kinds of the legs of a capture.

ghost use Rattle.std.specs.Prelude.{◌≡◌};
ghost use Rattle.rh_audit.specs.Links as links;
ghost use Rattle.rh_audit.specs.Pipes as pipes;

use rh_audit::Seen;
use rh_line::LegKind;
use rh_sig::Pipe;
use std::alloc::{AllocError, Global};
use std::collections::BTreeMap;

/// The kind of leg that has the pipe.
fn kind_of(pipe: Pipe) -> LegKind
    ensures { result ≡ pipes.kind_of pipe }
{
    match pipe {
        Pipe::CiU => LegKind::ClientIn,
        Pipe::IsU | Pipe::IsD => LegKind::InServer,
        Pipe::CoU | Pipe::CoD => LegKind::ClientOut,
        Pipe::OsU | Pipe::OsD => LegKind::OutServer,
    }
}

/// Whether they are the same.
fn same_kind(one: LegKind, other: LegKind) -> bool
    ensures { result ≡ links.same_kind one other }
{
    one == other
}

/// The kind of each tag that has a line.
#[derive(Drop)]
pub(crate) struct Kinds {
    kinds: BTreeMap<u64, LegKind>,
}

impl Kinds {
    ghost use Rattle.std.specs.Prelude.{◌≡◌, ◌==◌, ℕ, if◌then◌else◌, IfOk, OnOk, None};
    ghost use Rattle.rh_capture.specs.Kinds.{fits_with, kind_at, known_with};
    ghost use Rattle.rh_audit.specs.Pipes.{kind_of};

    /// No tag has a line.
    pub(crate) fn new(alloc: Global) -> Kinds
        ensures { (tag : ℕ) → kind_at result tag ≡ None }
    {
        Kinds {
            kinds: BTreeMap::new(alloc),
        }
    }

    /// Notes a line, and answers whether its pipe is one of the kind that its tag has.
    ///
    /// Fails where there is no memory.
    pub(crate) fn note(&mut self, tag: u64, pipe: Pipe) -> Result<bool, AllocError>
        ensures fits { IfOk result (λ fits. fits ≡ fits_with (kind_at self.old tag) (kind_of pipe)) }
        ensures noted { OnOk result ((other : ℕ) → kind_at self.new other
            ≡ (if tag == other then known_with (kind_at self.old other) (kind_of pipe)
            else kind_at self.old other)) }
    {
        let kind = kind_of(pipe);
        if let Some(known) = self.kinds.get(&tag).copied() {
            return Ok(same_kind(known, kind));
        }
        self.kinds.insert(tag, kind)?;
        Ok(true)
    }
}
