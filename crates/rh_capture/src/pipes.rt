//! The pipes of legs, and their words.

ghost use Rattle.std.specs.Prelude.{◌≡◌};
ghost use Rattle.rh_audit.specs.Pipes.{pipe_word};
ghost use Rattle.rh_capture.specs.Moves as moves;

use rh_line::{Dir, LegKind};
use rh_sig::Pipe;

/// The pipe of a leg of this kind in a direction; `None` for those that no capture has: nothing
/// goes from an in proxy to the client but the answer to its head, and no RPC PDU from the server
/// to an in proxy.
pub fn pipe_of(kind: LegKind, dir: Dir) -> Option<Pipe>
    ensures { result ≡ moves.pipe_of kind dir }
{
    match (kind, dir) {
        (LegKind::ClientIn, Dir::U) => Some(Pipe::CiU),
        (LegKind::InServer, Dir::U) => Some(Pipe::IsU),
        (LegKind::ClientOut, Dir::U) => Some(Pipe::CoU),
        (LegKind::ClientOut, Dir::D) => Some(Pipe::CoD),
        (LegKind::OutServer, Dir::U) => Some(Pipe::OsU),
        (LegKind::OutServer, Dir::D) => Some(Pipe::OsD),
        (LegKind::ClientIn | LegKind::InServer, Dir::D) => None,
    }
}

/// The word for a pipe.
pub fn word_of(pipe: Pipe) -> &'static str
    ensures { result.now ≡ pipe_word pipe }
{
    match pipe {
        Pipe::CiU => "ciu",
        Pipe::IsU => "isu",
        Pipe::IsD => "isd",
        Pipe::CoU => "cou",
        Pipe::CoD => "cod",
        Pipe::OsU => "osu",
        Pipe::OsD => "osd",
    }
}
