//! The legs of a capture, each from the lines of its tag.

ghost use Rattle.std.specs.Prelude.{◌≡◌, ◌++◌, ◌<◌, ◌^◌, IfOk, OnOk, option_to_list};
ghost use Rattle.std.specs.List.{AllByRecursion};
ghost use Rattle.rh_line.specs.declared.leg.LegKind.{LegKind};
ghost use Rattle.rh_audit.specs.Audits.{broken_by, broken_in};
ghost use Rattle.rh_audit.specs.Captures.{IsOfKind, total};
ghost use Rattle.rh_audit.specs.Chains.{leg_by, leg_in, pdus_in, stream_in};
ghost use Rattle.rh_audit.specs.Links.{legs_if, told_behind};
ghost use Rattle.rh_audit.specs.Pieces.{all_seen};
ghost use Rattle.rh_audit.specs.Pipes as pipes;
ghost use Rattle.rh_audit.specs.Reads.{legs_read};
ghost use Rattle.rh_audit.specs.Summaries.{IsStreamRead};

use crate::fault::AuditFault;
use crate::pieces::Piece;
use crate::read_leg::ReadLeg;
use crate::summary::{StreamRead, Summary, read_frames};
use rh_line::LegKind;
use rh_sig::Pipe;
use std::alloc::{AllocError, Global};

/// The kind of leg that has the pipe.
pub(crate) fn kind_of(pipe: Pipe) -> LegKind
    ensures { result ≡ pipes.kind_of pipe }
{
    match pipe {
        Pipe::CiU => LegKind::ClientIn,
        Pipe::IsU | Pipe::IsD => LegKind::InServer,
        Pipe::CoU | Pipe::CoD => LegKind::ClientOut,
        Pipe::OsU | Pipe::OsD => LegKind::OutServer,
    }
}

/// The pipe on which the first packet of a leg goes.
fn first_pipe(kind: LegKind) -> Pipe
    ensures { result ≡ pipes.first_pipe kind }
{
    match kind {
        LegKind::ClientIn => Pipe::CiU,
        LegKind::InServer => Pipe::IsU,
        LegKind::ClientOut => Pipe::CoU,
        LegKind::OutServer => Pipe::OsU,
    }
}

/// The pipe on which the RPC PDUs of a leg go.
pub(crate) fn pdu_pipe(kind: LegKind) -> Pipe
    ensures { result ≡ pipes.pdu_pipe kind }
{
    match kind {
        LegKind::ClientIn => Pipe::CiU,
        LegKind::InServer => Pipe::IsU,
        LegKind::ClientOut => Pipe::CoD,
        LegKind::OutServer => Pipe::OsD,
    }
}

/// Tells the place at which a stream is broken.
fn tell_broken(
    tag: u64,
    pipe: Pipe,
    broken: Option<u64>,
    faults: &mut Vec<AuditFault>,
) -> Result<(), AllocError>
    ensures { OnOk result (faults.new.items ≡ faults.old.items ++ broken_by tag pipe broken) }
{
    if let Some(place) = broken {
        faults.push(AuditFault::Broken { tag, pipe, place })?;
    }
    Ok(())
}

/// Reads one stream of a tag, and tells the place at which it is broken.
fn read_stream(
    alloc: Global,
    tag: u64,
    pipe: Pipe,
    lines: &[Piece<'_>],
    room: &mut Vec<u8>,
    faults: &mut Vec<AuditFault>,
) -> Result<StreamRead, AllocError>
    requires { total (all_seen lines.now) < 2 ^ 36 }
    ensures told { OnOk result (faults.new.items ≡ faults.old.items
        ++ broken_by tag pipe (stream_in pipe (all_seen lines.now)).broken) }
    ensures read { IfOk result (λ read. IsStreamRead pipe (all_seen lines.now) read) }
{
    let read = read_frames(alloc, lines, pipe, room)?;
    tell_broken(tag, pipe, read.says.broken, faults)?;
    Ok(read)
}

/// Reads the stream of the RPC PDUs of a leg, where it is another one than that of its first
/// packet, which was read.
fn read_carried(
    alloc: Global,
    tag: u64,
    kind: LegKind,
    lines: &[Piece<'_>],
    begun: StreamRead,
    room: &mut Vec<u8>,
    faults: &mut Vec<AuditFault>,
) -> Result<StreamRead, AllocError>
    requires begun { IsStreamRead (pipes.first_pipe kind) (all_seen lines.now) begun }
    requires short { total (all_seen lines.now) < 2 ^ 36 }
    ensures told { OnOk result (faults.new.items ≡ faults.old.items
        ++ told_behind tag kind (all_seen lines.now)) }
    ensures read { IfOk result (λ read.
        IsStreamRead (pipes.pdu_pipe kind) (all_seen lines.now) read) }
{
    if first_pipe(kind) == pdu_pipe(kind) {
        return Ok(begun);
    }
    read_stream(alloc, tag, pdu_pipe(kind), lines, room, faults)
}

/// The leg of a tag, where its first packet was seen.
fn leg_read<'a>(
    tag: u64,
    kind: LegKind,
    lines: &'a [Piece<'a>],
    begun: &Summary,
    carried: StreamRead,
) -> Option<ReadLeg<'a>>
    requires { IsStreamRead (pipes.pdu_pipe kind) (all_seen lines.now) carried }
    ensures { legs_read (option_to_list result)
        ≡ leg_by tag begun.now.anew carried.says.marked
        (pdus_in (pipes.pdu_pipe kind) (all_seen lines.now)) begun.now.first }
{
    let first = begun.first?;
    Some(ReadLeg {
        tag,
        kind,
        predecessor: first.predecessor,
        newest: begun.anew.unwrap_or(first.own),
        marked: carried.says.marked,
        lines,
        places: carried.places,
    })
}

/// Reads the lines of a tag, which are of one kind of leg, and tells the places at which its
/// streams are broken.
///
/// Fails where there is no memory.
pub(crate) fn read_leg<'a>(
    alloc: Global,
    tag: u64,
    kind: LegKind,
    lines: &'a [Piece<'a>],
    room: &mut Vec<u8>,
    faults: &mut Vec<AuditFault>,
) -> Result<Option<ReadLeg<'a>>, AllocError>
    requires kind { AllByRecursion (IsOfKind kind) (all_seen lines.now) }
    requires short { total (all_seen lines.now) < 2 ^ 36 }
    ensures told { OnOk result (faults.new.items ≡ faults.old.items
        ++ broken_in tag (all_seen lines.now)) }
    ensures legs { IfOk result (λ leg. (any : LegKind)
        → leg_in any tag (all_seen lines.now) ≡ legs_if any kind (legs_read (option_to_list leg))) }
{
    let begun = read_stream(alloc, tag, first_pipe(kind), lines, room, faults)?;
    let says = begun.says;
    let carried = read_carried(alloc, tag, kind, lines, begun, room, faults)?;
    Ok(leg_read(tag, kind, lines, &says, carried))
}
