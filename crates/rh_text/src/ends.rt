//! The two ends of a virtual connection, the two directions of a leg, and their words.

/// An end of the virtual connection.
#[derive(Clone, Copy, Debug, PartialEq, Eq)]
pub enum Side {
    Client,
    Server,
}

/// A direction of a leg: `U` is towards the server, `D` towards the client.
#[derive(Clone, Copy, Debug, PartialEq, Eq)]
pub enum Dir {
    U,
    D,
}

impl Side {
    ghost use Rattle.std.specs.Prelude.{◌≡◌, MatchOption};
    ghost use Rattle.rh_text.specs.declared.ends.Side.{Side};
    ghost use Rattle.rh_text.specs.Ends.{side_word};

    /// The word for the end: `c` or `s`.
    pub fn word(self) -> &'static str
        ensures { result.now ≡ side_word self }
    {
        match self {
            Side::Client => "c",
            Side::Server => "s",
        }
    }

    /// The end that the word is for; `None` where it is for none.
    pub fn of_word(word: &[u8]) -> Option<Side>
        ensures { MatchOption result ((side : Side) → ¬ (word.now ≡ side_word side))
            (λ side. word.now ≡ side_word side) }
    {
        match word {
            b"c" => Some(Side::Client),
            b"s" => Some(Side::Server),
            _ => None,
        }
    }
}

impl Dir {
    ghost use Rattle.std.specs.Prelude.{◌≡◌, MatchOption};
    ghost use Rattle.rh_text.specs.declared.ends.Dir.{Dir};
    ghost use Rattle.rh_text.specs.Ends.{dir_word};

    /// The word for the direction: `u` or `d`.
    pub fn word(self) -> &'static str
        ensures { result.now ≡ dir_word self }
    {
        match self {
            Dir::U => "u",
            Dir::D => "d",
        }
    }

    /// The direction that the word is for; `None` where it is for none.
    pub fn of_word(word: &[u8]) -> Option<Dir>
        ensures { MatchOption result ((dir : Dir) → ¬ (word.now ≡ dir_word dir))
            (λ dir. word.now ≡ dir_word dir) }
    {
        match word {
            b"u" => Some(Dir::U),
            b"d" => Some(Dir::D),
            _ => None,
        }
    }
}
