//! Which kind a server's leg has.

ghost use Rattle.std.specs.Prelude.{◌≡◌, length};
ghost use Rattle.rh_pdu.specs.Header.{header_length};
ghost use Rattle.rh_rts.specs.Reading.{read_packet};
ghost use Rattle.rh_server.specs.FirstKinds.{first_kind, frame_of, kind_by, in_by, out_by};

use rh_pdu::Header;
use rh_pdu::header::HEADER_LEN;
use rh_rts::view;
use rh_sig::{Name, Pipe, name_of};

/// What the first bytes on a leg of a server tell of its kind.
#[derive(Clone, Copy, Debug, PartialEq, Eq)]
pub enum FirstKind {
    /// No frame is whole, and the header is not at fault.
    Need,
    /// CONN/B2 or IN_R1/A2 came: an is leg.
    In,
    /// CONN/A2 or OUT_R1/A4 came: an os leg.
    Out,
    /// Another frame came, or a header at fault: the leg is to be shut.
    Stranger,
}

/// Which kind a leg has on which these bytes came first, by their first frame.
pub fn first_kind(bytes: &[u8]) -> FirstKind
    ensures { result ≡ first_kind bytes.now }
{
    let Some(header) = bytes.first_chunk::<HEADER_LEN>() else {
        return FirstKind::Need;
    };
    frame_of(bytes, header)
}

/// By the header of the first frame.
fn frame_of(bytes: &[u8], header: &[u8; HEADER_LEN]) -> FirstKind
    ensures { result ≡ frame_of bytes.now header.now }
{
    let Ok(header) = Header::read(header) else {
        return FirstKind::Stranger;
    };
    let len = usize::from(header.frag);
    if bytes.len() < len {
        return FirstKind::Need;
    }
    let (frame, _) = bytes.split_at(len);
    kind_of(frame)
}

/// By the first frame, where that is whole.
fn kind_of(frame: &[u8]) -> FirstKind
    ensures { result ≡ kind_by (read_packet frame.now) }
{
    let packet = match view(frame) {
        Ok(packet) => packet,
        Err(_) => return FirstKind::Stranger,
    };
    in_by(
        name_of(&packet, Pipe::IsU),
        out_by(name_of(&packet, Pipe::OsU)),
    )
}

/// CONN/A2 and OUT_R1/A4 come first on an os leg.
fn out_by(name: Option<Name>) -> FirstKind
    ensures { result ≡ out_by name }
{
    match name {
        Some(Name::ConnA2 | Name::OutR1A4) => FirstKind::Out,
        _ => FirstKind::Stranger,
    }
}

/// CONN/B2 and IN_R1/A2 on an is leg.
fn in_by(name: Option<Name>, other: FirstKind) -> FirstKind
    ensures { result ≡ in_by name other }
{
    match name {
        Some(Name::ConnB2 | Name::InR1A2) => FirstKind::In,
        _ => other,
    }
}
