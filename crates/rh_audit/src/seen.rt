//! The lines of a capture.

ghost use Rattle.std.specs.Prelude.{MatchOption};
ghost use Rattle.rh_sig.specs.declared.name.Pipe.{Pipe};
ghost use Rattle.rh_audit.specs.Pipes.{IsPipe};

use rh_sig::Pipe;
use rh_text::Bytes;

/// Bytes that were seen on a leg in one direction.
///
/// A tag stands for one leg, and the bytes of a tag and pipe follow each other as their lines do.
#[derive(Debug, Drop)]
pub struct Seen {
    /// The leg: 1 to 18,446,744,073,709,551,615.
    pub tag: u64,
    /// Between which roles the leg runs, and the direction. There is no line of `IsD`.
    pub pipe: Pipe,
    /// The bytes: 1 to 65,536.
    pub bytes: Bytes,
}

/// The words for the pipes that a capture has.
pub(crate) fn pipe_of_word(word: &[u8]) -> Option<Pipe>
    ensures { MatchOption result ((pipe : Pipe) → ¬ IsPipe pipe word.now)
        (λ pipe. IsPipe pipe word.now) }
{
    match word {
        b"ciu" => Some(Pipe::CiU),
        b"isu" => Some(Pipe::IsU),
        b"cou" => Some(Pipe::CoU),
        b"cod" => Some(Pipe::CoD),
        b"osu" => Some(Pipe::OsU),
        b"osd" => Some(Pipe::OsD),
        _ => None,
    }
}
