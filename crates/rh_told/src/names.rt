//! What the packets among bytes that a node put are called, a line for each.

ghost use Rattle.std.specs.Prelude.{◌≡◌, ◌<◌, ◌∷◌, [], IfSome, MatchOption, length, string_bytes};
ghost use Rattle.rh_text.specs.Writing.{Writes};
ghost use Rattle.rh_pdu.specs.Cut.{frames_of};
ghost use Rattle.rh_told.specs.Names as seen;

use rh_name::name_packet;
use rh_pdu::Header;
use rh_pdu::header::{HEADER_LEN, VERSION};
use rh_sig::Pipe;
use std::alloc::AllocError;

/// The bytes from the first one on with which a header may begin.
fn behind_text(bytes: &[u8]) -> &[u8]
    ensures { result.now ≡ seen.behind_text bytes.now }
{
    let mut rest = bytes;
    'bytes: while let [first, behind @ ..] = rest {
        if *first == VERSION {
            return rest;
        }
        rest = behind;
    }
    rest
}

/// The frame that stands whole at the front, and what stands behind it.
fn split_frame(bytes: &[u8]) -> Option<(&[u8], &[u8])>
    ensures frame { MatchOption result (frames_of bytes.now ≡ [])
        (λ cut. frames_of bytes.now ≡ cut.0.now ∷ frames_of cut.1.now) }
    ensures shorter { IfSome result (λ cut. length cut.1.now < length bytes.now) }
{
    let header = bytes.first_chunk::<HEADER_LEN>()?;
    let Ok(header) = Header::read(header) else {
        return None;
    };
    let len = usize::from(header.frag);
    if len > bytes.len() {
        return None;
    }
    Some(bytes.split_at(len))
}

/// Appends the line of a packet.
fn write_name(pipe: Option<Pipe>, frame: &[u8], out: &mut String) -> Result<(), AllocError>
    ensures { Writes (seen.name_line pipe frame.now) result
        (string_bytes out.old) (string_bytes out.new) }
{
    out.push_str("name ")?;
    name_packet(pipe, frame, out)
}

/// Appends a line for each packet among bytes that were put on that pipe.
pub(crate) fn write_names(
    pipe: Option<Pipe>,
    bytes: &[u8],
    out: &mut String,
) -> Result<(), AllocError>
    ensures { Writes (seen.names_among pipe bytes.now) result
        (string_bytes out.old) (string_bytes out.new) }
{
    let mut rest = behind_text(bytes);
    'frames: while let Some((frame, behind)) = split_frame(rest) {
        write_name(pipe, frame, out)?;
        rest = behind;
    }
    Ok(())
}
