//! How the program ends.

use rh_word::Ended;
use std::fmt::{self, Display, Formatter, Write};

/// How a run ended. Its number is the program's exit status, and its text goes to standard error.
#[derive(Clone, Copy, Debug, PartialEq, Eq)]
pub enum Status {
    /// The input was read to its end, and the output is whole.
    Done,
    /// The words are in no form that the program has.
    Usage,
    /// The line with this number, from 1, is the first that is outside the grammar.
    BadInput(u64),
    /// The input failed.
    ReadFault,
    /// The output failed.
    WriteFault,
    /// There was no memory.
    NoMemory,
    /// The input is longer than the program reads.
    TooLong,
}

/// Calls a macro with a row for each status but `Done`: its number, its text, and what stands
/// behind the text.
macro_rules! statuses {
    ($rows:ident) => {
        $rows! {
            Usage 1 "usage" "";
            BadInput 2 "bad input" " <line>";
            ReadFault 3 "read fault" "";
            WriteFault 4 "write fault" "";
            NoMemory 8 "no memory" "";
            TooLong 9 "input too long" " (above 67,108,864 bytes)";
        }
    };
}

impl Status {
    ghost use Rattle.std.specs.Prelude.{◌≡◌};
    ghost use Rattle.rh_words.specs.Statuses.{status_number, status_name};

    /// The exit status: 0 to 9, and 0 for `Done` alone.
    pub fn number(&self) -> u8
        ensures { result ≡ status_number self.now }
    {
        macro_rules! numbers {
            ($($status:ident $number:literal $name:literal $more:literal;)*) => {
                match self {
                    Status::Done => 0,
                    $(Status::$status { .. } => $number,)*
                }
            };
        }
        statuses!(numbers)
    }

    /// What it is called.
    fn name(&self) -> &'static str
        ensures { result.now ≡ status_name self.now }
    {
        macro_rules! names {
            ($($status:ident $number:literal $name:literal $more:literal;)*) => {
                match self {
                    Status::Done => "done",
                    $(Status::$status { .. } => $name,)*
                }
            };
        }
        statuses!(names)
    }
}

impl Display for Status {
    ghost use Rattle.std.specs.Prelude.{Some};
    ghost use Rattle.rh_words.specs.Statuses.{status_text};

    ghost output = { λ status. Some (status_text status) };

    fn fmt<W: Write>(&self, f: &mut Formatter<W>) -> fmt::Result {
        match self {
            Status::BadInput(line) => write!(f, "bad input {line}"),
            status => f.write_str(status.name()),
        }
    }
}

impl From<Ended> for Status {
    ghost use Rattle.std.specs.Prelude.{◌≡◌};
    ghost use Rattle.rh_words.specs.Statuses.{status_of};

    ghost from_gives = { λ ended status. status ≡ status_of ended };

    fn from(ended: Ended) -> Status {
        match ended {
            Ended::Done => Status::Done,
            Ended::BadInput(line) => Status::BadInput(line),
            Ended::ReadFault => Status::ReadFault,
            Ended::WriteFault => Status::WriteFault,
            Ended::NoMemory => Status::NoMemory,
            Ended::TooLong => Status::TooLong,
        }
    }
}

pub(crate) use statuses;
