//! A buffer that is filled up to the end of the first frame.

ghost use Rattle.std.specs.Prelude.{◌≡◌, ◌≤◌, ◌<◌, ◌+◌, ◌-◌, ◌++◌, length, take, min, None};
ghost use Rattle.rh_pdu.specs.Header.{header_length, greatest_length, frag_of, head_fault};
ghost use Rattle.rh_pdu.specs.Frames.{IsUnfinished};
ghost use Rattle.rh_pdu.specs.Filling.{Holds};

use crate::feed::Put;
use crate::header::HEADER_LEN;
use crate::reading::{frag_of, head_fault};

/// Puts the front of the piece behind the first `held` bytes, up to `want` bytes in all, and
/// answers how many are held then.
fn put(buf: &mut [u8], held: usize, want: usize, piece: &[u8]) -> usize
    requires room { want ≤ length buf.old }
    requires below { held ≤ want }
    ensures count { result ≡ min want (held + length piece.now) }
    ensures bytes { take result buf.new ≡ take result (take held buf.old ++ piece.now) }
{
    let count = (want - held).min(piece.len());
    let end = held + count;
    buf[held..end].copy_from_slice(&piece[..count]);
    end
}

/// Puts the piece behind the bytes held, up to the end of the frame whose header is held.
#[inline(always)]
fn put_behind(buf: &mut [u8], held: usize, piece: &[u8]) -> Put
    requires room { length buf.old ≡ greatest_length }
    requires header { header_length ≤ held }
    requires sound { head_fault buf.old ≡ None }
    requires below { held ≤ frag_of buf.old }
    ensures { Holds result (take held buf.old ++ piece.now) buf.new }
{
    let frag = usize::from(frag_of(buf));
    let now = put(buf, held, frag, piece);
    if now < frag {
        Put::Part(now)
    } else {
        Put::Whole(frag)
    }
}

/// Puts the piece behind the bytes held, up to the end of the first frame, or of the first header
/// where that breaks a rule.
#[inline(always)]
pub fn put_frame(buf: &mut [u8], held: usize, piece: &[u8]) -> Put
    requires room { length buf.old ≡ greatest_length }
    requires below { held ≤ greatest_length }
    requires unfinished { IsUnfinished (take held buf.old) }
    ensures { Holds result (take held buf.old ++ piece.now) buf.new }
{
    if held >= HEADER_LEN {
        return put_behind(buf, held, piece);
    }
    let now = put(buf, held, HEADER_LEN, piece);
    if now < HEADER_LEN {
        return Put::Part(now);
    }
    match head_fault(buf) {
        Some(fault) => Put::Bad(fault),
        None => {
            let (_, behind) = piece.split_at(HEADER_LEN - held);
            put_behind(buf, HEADER_LEN, behind)
        }
    }
}
