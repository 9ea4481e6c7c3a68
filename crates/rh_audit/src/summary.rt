//! What a stream says of its leg, and where its RPC PDUs stand.

ghost use Rattle.std.specs.Prelude.{◌≡◌, ◌++◌, ◌∷◌, ◌<◌, ◌^◌, [], IfOk, OnOk, if◌then◌else◌, length};
ghost use Rattle.rh_audit.specs.Captures.{carried};
ghost use Rattle.rh_audit.specs.Packets.{is_pdu};
ghost use Rattle.rh_audit.specs.Pieces.{all_seen};
ghost use Rattle.rh_audit.specs.Summaries as seen;

use crate::packet::{First, Met};
use crate::pieces::Piece;
use crate::place::Place;
use crate::stream::{Next, Stream};
use rh_rts::Cookie;
use rh_sig::Pipe;
use std::alloc::{AllocError, Global};

/// The first packet, the last cookie that the channel got anew, whether its handover mark came, and
/// where the stream is broken.
#[derive(Clone, Copy)]
pub(crate) struct Summary {
    pub(crate) first: Option<First>,
    pub(crate) anew: Option<Cookie>,
    pub(crate) marked: bool,
    pub(crate) broken: Option<u64>,
}

/// What a stream says, and where its RPC PDUs stand.
#[derive(Drop)]
pub(crate) struct StreamRead {
    pub(crate) says: Summary,
    pub(crate) places: Vec<Place>,
}

/// What is said with one frame more, which begins the stream or not.
fn with_met(found: Summary, begins: bool, met: &Met) -> Summary
    ensures { result ≡ seen.with_met found begins met.now }
{
    Summary {
        first: if begins { met.first() } else { found.first },
        anew: met.renewed().or(found.anew),
        marked: found.marked || met.is_mark(),
        broken: found.broken,
    }
}

/// Keeps the place of a frame that is an RPC PDU.
fn keep_pdu(places: &mut Vec<Place>, met: &Met, place: Place) -> Result<(), AllocError>
    ensures { OnOk result (places.new.items ≡ (if is_pdu met.now
        then places.old.items ++ place ∷ [] else places.old.items)) }
{
    if let Met::Pdu = met {
        places.push(place)?;
    }
    Ok(())
}

/// Reads the stream of a pipe in lines to its end: once, frame by frame. The room is for its head.
///
/// Fails where there is no memory for the head or for the places.
pub(crate) fn read_frames(
    alloc: Global,
    lines: &[Piece<'_>],
    pipe: Pipe,
    room: &mut Vec<u8>,
) -> Result<StreamRead, AllocError>
    requires { length (carried pipe (all_seen lines.now)) < 2 ^ 63 }
    ensures { IfOk result (λ read. seen.IsStreamRead pipe (all_seen lines.now) read) }
{
    let mut left = Stream::begin(lines, pipe, room)?;
    let mut says = Summary {
        first: None,
        anew: None,
        marked: false,
        broken: None,
    };
    let mut begins = true;
    let mut places = Vec::new(alloc);
    'frames: loop {
        match left.next() {
            Next::Frame { met, place } => {
                says = with_met(says, begins, &met);
                begins = false;
                keep_pdu(&mut places, &met, place)?;
            }
            Next::End => return Ok(StreamRead { says, places }),
            Next::Broken(place) => {
                says.broken = Some(place);
                return Ok(StreamRead { says, places });
            }
        }
    }
}
