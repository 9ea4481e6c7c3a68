//! Judges the bytes of a packet, and reads it (MS-RPCH 2.2.3.6).

ghost use Rattle.std.specs.Prelude.{◌≡◌, ◌+◌, ◌≤◌, ◌<◌, ◌-◌, ◌^◌, length, drop, MatchResult, Some};
ghost use Rattle.std.specs.Prelude.{None};
ghost use Rattle.std.specs.Prelude.{◌≢◌, [], Ok, Err};
ghost use Rattle.rh_rts.specs.declared.fault.RtsFault.{RtsFault};
ghost use Rattle.rh_rts.specs.Packets.{Parts, IsPacket, packet_bytes};
ghost use Rattle.rh_rts.specs.Refusals.{fault, FirstFault, BodyFault};
ghost use Rattle.rh_rts.specs.declared.fault.RtsKind.TheVariants.{Left};
ghost use Rattle.rh_rts.specs.Judging.{Judged};
ghost use Rattle.rh_rts.specs.Reading.{read_packet};
ghost use Rattle.rh_rts.specs.Listing.{listed, AreAll};

use crate::fault::{RtsFault, RtsKind};
use crate::header::read_head;
use crate::reading::skip_command;
use crate::views::View;

/// Whether nothing stands behind the last command.
fn check_end(place: usize, rest: &[u8]) -> Result<(), RtsFault>
    ensures { MatchResult result (λ _. rest.now ≡ [])
        (λ wrong. (rest.now ≢ []) × (fault place Left ≡ Some wrong)) }
{
    if rest.is_empty() {
        return Ok(());
    }
    Err(RtsFault {
        place,
        kind: RtsKind::Left,
    })
}

/// Whether so many commands are all of the bytes.
fn check_body(total: usize, count: u16, body: &[u8]) -> Result<(), RtsFault>
    requires { length body.now ≤ total }
    ensures { MatchResult result (λ _. AreAll count (listed count body.now) body.now)
        (λ wrong. BodyFault total count body.now wrong) }
{
    let mut rest = body;
    for _ in 0..count {
        let after = skip_command(total - rest.len(), rest)?;
        rest = after;
    }
    check_end(total - rest.len(), rest)
}

/// The packet that the bytes are; else the first part that is wrong.
pub fn view(bytes: &[u8]) -> Result<View<'_>, RtsFault>
    ensures reads { Judged bytes.now result }
    ensures computed { result ≡ read_packet bytes.now }
    ensures packet { (p : Parts) → IsPacket p → bytes.now ≡ packet_bytes p → result ≡ Ok p }
    ensures fault { (wrong : RtsFault) → FirstFault bytes.now wrong → result ≡ Err wrong }
{
    judge(bytes)
}

/// Judges the bytes, from which the laws of `view` follow.
fn judge(bytes: &[u8]) -> Result<View<'_>, RtsFault>
    ensures { Judged bytes.now result }
{
    let (flags, count, rest) = read_head(bytes)?;
    check_body(bytes.len(), count, rest)?;
    Ok(View { flags, count, rest })
}
