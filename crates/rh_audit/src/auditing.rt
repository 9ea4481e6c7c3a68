//! Audits captured legs.

ghost use Rattle.std.specs.Prelude.{◌≡◌, ◌++◌, ◌<◌, ◌^◌, IfOk, OnOk, length};
ghost use Rattle.std.specs.List.{flat_map};
ghost use Rattle.rh_audit.specs.Audits.{IsAudit, prefixed};
ghost use Rattle.rh_audit.specs.Captures.{IsCapture};
ghost use Rattle.rh_line.specs.declared.leg.LegKind.{LegKind};
ghost use Rattle.rh_audit.specs.Chains.{chain, joined};
ghost use Rattle.rh_audit.specs.Links.{legs_of};
ghost use Rattle.rh_audit.specs.Reads.{IsTold, left_of, legs_read, read_in};

use crate::fault::AuditFault;
use crate::kept::Chain;
use crate::legs::{Begun, Legs, read_legs};
use crate::prefixed::Prefixed;
use crate::seen::Seen;
use crate::sorting::by_tag;
use crate::verdict::Audit;
use crate::walk::{Walk, compare};
use rh_line::LegKind;
use std::alloc::{AllocError, Global};

/// The chain of each kind of leg.
#[derive(Drop)]
pub(crate) struct Chains<'a> {
    client_in: Chain<'a>,
    in_server: Chain<'a>,
    client_out: Chain<'a>,
    out_server: Chain<'a>,
}

impl<'a> Chains<'a> {
    ghost use Rattle.std.specs.Prelude.{◌≡◌, IfOk};
    ghost use Rattle.rh_line.specs.declared.leg.LegKind.{LegKind};
    ghost use Rattle.rh_audit.specs.Chains.{chain};
    ghost use Rattle.rh_audit.specs.Links.{legs_of};
    ghost use Rattle.rh_audit.specs.Reads.{chains_of, legs_read, read_in};

    /// The chains of these legs.
    fn new(alloc: Global, legs: &'a Legs<'a>) -> Result<Chains<'a>, AllocError>
        ensures { IfOk result (λ chains. (kind : LegKind)
            → legs_of (chains_of chains kind) ≡ chain (legs_read (read_in kind legs.now))) }
    {
        Ok(Chains {
            client_in: Chain::new(alloc, &legs.client_in)?,
            in_server: Chain::new(alloc, &legs.in_server)?,
            client_out: Chain::new(alloc, &legs.client_out)?,
            out_server: Chain::new(alloc, &legs.out_server)?,
        })
    }

    /// The chain of a kind.
    fn of(&self, kind: LegKind) -> &Chain<'a>
        ensures { result.now ≡ chains_of self.now kind }
    {
        match kind {
            LegKind::ClientIn => &self.client_in,
            LegKind::InServer => &self.in_server,
            LegKind::ClientOut => &self.client_out,
            LegKind::OutServer => &self.out_server,
        }
    }
}

/// Tells each tag whose first packet was seen and that stands in no chain.
fn tell_unchained(
    begun: &[Begun],
    chains: &Chains<'_>,
    faults: &mut Vec<AuditFault>,
) -> Result<(), AllocError>
    ensures { OnOk result (faults.new.items
        ≡ faults.old.items ++ flat_map (left_of chains.now) begun.now) }
{
    for leg in begun {
        if !chains.of(leg.kind).has(leg.tag) {
            faults.push(AuditFault::Unchained { tag: leg.tag })?;
        }
    }
    Ok(())
}

/// Compares what two chains carried.
fn compare_chains(alloc: Global, far: &Chain<'_>, near: &Chain<'_>) -> Result<Prefixed, AllocError>
    requires far { length (joined (legs_of far.now)) < 2 ^ 32 }
    requires near { length (joined (legs_of near.now)) < 2 ^ 32 }
    ensures { IfOk result (λ told.
        told ≡ prefixed (joined (legs_of far.now)) (joined (legs_of near.now))) }
{
    compare(
        Walk::new(alloc, far.links()),
        Walk::new(alloc, near.links()),
    )
}

/// What is told of the legs that were read, behind the faults of their streams.
fn audit_legs(alloc: Global, legs: &Legs<'_>, faults: Vec<AuditFault>) -> Result<Audit, AllocError>
    requires { (kind : LegKind)
        → length (joined (chain (legs_read (read_in kind legs.now)))) < 2 ^ 32 }
    ensures { IfOk result (λ told.
        IsTold legs.now faults.items told.faults.items told.up told.down) }
{
    let mut faults = faults;
    let chains = Chains::new(alloc, legs)?;
    tell_unchained(legs.begun.as_slice(), &chains, &mut faults)?;
    let up = compare_chains(alloc, &chains.in_server, &chains.client_in)?;
    let down = compare_chains(alloc, &chains.client_out, &chains.out_server)?;
    Ok(Audit { faults, up, down })
}

/// Tells of captured legs whether what was seen on the far legs is a front of what was seen on the
/// near legs, in both directions, and what is wrong with the legs themselves.
///
/// Each tag has one kind of leg, no line is of the pipe `IsD`, and all bytes together are fewer
/// than 68,719,476,736, so that there are fewer than 4,294,967,296 PDUs. Each stream is cut into
/// frames once. The memory that is taken is 16 bytes for each PDU, in a list for each tag that
/// grows by doubling, and a constant number of bytes for each line and tag, beside the head of one
/// stream and two PDUs at a time.
///
/// Fails where there is no memory.
pub fn audit(alloc: Global, seen: &[Seen]) -> Result<Audit, AllocError>
    requires { IsCapture seen.now }
    ensures { IfOk result (λ told. IsAudit seen.now told.faults.items told.up told.down) }
{
    let lines = by_tag(alloc, seen)?;
    let mut faults = Vec::new(alloc);
    let legs = read_legs(alloc, lines.as_slice(), &mut faults)?;
    let told = audit_legs(alloc, &legs, faults)?;
    Ok(told)
}
