//! The streams of bytes of a recording: one for each leg and direction.

ghost use Rattle.std.specs.Prelude.{◌≡◌};
ghost use Rattle.rh_story.specs.Streams as seen;

use rh_line::{Dir, Leg, LegKind};
use rh_sig::Pipe;

/// The pipe on which the packets of a stream have their names; `None` for the leg of a direct
/// recording, and for what an in proxy answers its client, where no packet stands.
pub(crate) fn pipe_of(leg: Option<Leg>, dir: Dir) -> Option<Pipe>
    ensures { result ≡ seen.pipe_of leg dir }
{
    let Some(leg) = leg else {
        return None;
    };
    match (leg.kind, dir) {
        (LegKind::ClientOut, Dir::U) => Some(Pipe::CoU),
        (LegKind::ClientOut, Dir::D) => Some(Pipe::CoD),
        (LegKind::OutServer, Dir::U) => Some(Pipe::OsU),
        (LegKind::OutServer, Dir::D) => Some(Pipe::OsD),
        (LegKind::ClientIn, Dir::U) => Some(Pipe::CiU),
        (LegKind::ClientIn, Dir::D) => None,
        (LegKind::InServer, Dir::U) => Some(Pipe::IsU),
        (LegKind::InServer, Dir::D) => Some(Pipe::IsD),
    }
}

/// From which node to which a stream goes: `c` is the client, `o` an out proxy, `i` an in proxy and
/// `s` the server.
pub(crate) fn way_word(leg: Option<Leg>, dir: Dir) -> &'static str
    ensures { result.now ≡ seen.way_word leg dir }
{
    match (leg, dir) {
        (None, Dir::U) => "c>s",
        (None, Dir::D) => "s>c",
        (Some(leg), Dir::U) => way_up(leg.kind),
        (Some(leg), Dir::D) => way_down(leg.kind),
    }
}

/// The same of a leg's direction towards the server.
fn way_up(kind: LegKind) -> &'static str
    ensures { result.now ≡ seen.way_up kind }
{
    match kind {
        LegKind::ClientOut => "c>o",
        LegKind::OutServer => "o>s",
        LegKind::ClientIn => "c>i",
        LegKind::InServer => "i>s",
    }
}

/// The same of a leg's direction towards the client.
fn way_down(kind: LegKind) -> &'static str
    ensures { result.now ≡ seen.way_down kind }
{
    match kind {
        LegKind::ClientOut => "o>c",
        LegKind::OutServer => "s>o",
        LegKind::ClientIn => "i>c",
        LegKind::InServer => "s>i",
    }
}

/// The place of a kind of leg in a key; 0 stands for the leg of a direct recording.
pub(crate) fn kind_place(kind: LegKind) -> u32
    ensures { result ≡ seen.kind_place kind }
{
    match kind {
        LegKind::ClientOut => 1,
        LegKind::OutServer => 2,
        LegKind::ClientIn => 3,
        LegKind::InServer => 4,
    }
}

/// The place of a direction in a key.
pub(crate) fn dir_place(dir: Dir) -> u32
    ensures { result ≡ seen.dir_place dir }
{
    match dir {
        Dir::U => 0,
        Dir::D => 1,
    }
}

/// The key of a stream: its kind of leg, its number and its direction.
pub(crate) fn key_of(leg: Option<Leg>, dir: Dir) -> [u32; 3]
    ensures { result ≡ seen.key_of leg dir }
{
    match leg {
        None => [0, 0, dir_place(dir)],
        Some(leg) => [kind_place(leg.kind), leg.number, dir_place(dir)],
    }
}
