//! How the run of a role ends, for the program.

ghost use Rattle.std.specs.Prelude.{◌≡◌, ◌≤◌, ◌↔◌, length, string_bytes};
ghost use Rattle.rh_text.specs.Writing.{Writes};
ghost use Rattle.rh_legs.specs.declared.end.NodeEnd.{NodeEnd as HowEnded};
ghost use Rattle.rh_relay.specs.Runs.{AllAre};
ghost use Rattle.rh_role_words.specs.Statuses.{status_name, status_of, status_text};
ghost use Rattle.rh_role_words.specs.Tellings.{TellsOfAll};

use rh_legs::NodeEnd;
use rh_line::{Cause, write_cause};
use rh_text::{Part, write_parts};
use std::alloc::AllocError;

/// How the run of a role ended. Its number is the program's exit status, and its text goes to
/// standard error.
#[derive(Clone, Copy, Debug, PartialEq, Eq)]
pub enum RoleStatus {
    /// At an end, the input was given whole, and all that came is written; at a proxy, all of its
    /// channels ended.
    Done,
    /// The words are no role's.
    Usage,
    /// The PDU of the input with this number, from 1, is the first that is none, or the input ends
    /// within it.
    BadInput(u64),
    /// The input failed.
    ReadFault,
    /// The output failed.
    WriteFault,
    /// A leg could not be connected, or the address could not be listened at.
    NetFault,
    /// The threads could not be started.
    SpawnFault,
    /// The machine closed, for this cause.
    Closed(Cause),
    /// There was no memory.
    NoMemory,
    /// No cookie could be made.
    CookieFault,
}

impl RoleStatus {
    ghost use Rattle.rh_role_words.specs.Statuses.{status_number};

    /// The exit status: 0 to 8 and 10, and 0 for `Done` alone.
    pub fn number(&self) -> u8
        ensures { result ≡ status_number self.now }
    {
        match self {
            RoleStatus::Done => 0,
            RoleStatus::Usage => 1,
            RoleStatus::BadInput(_) => 2,
            RoleStatus::ReadFault => 3,
            RoleStatus::WriteFault => 4,
            RoleStatus::NetFault => 5,
            RoleStatus::SpawnFault => 6,
            RoleStatus::Closed(_) => 7,
            RoleStatus::NoMemory => 8,
            RoleStatus::CookieFault => 10,
        }
    }
}

impl RoleStatus {
    // What it is called.
    fn name(&self) -> &'static str
        ensures { result.now ≡ status_name self.now }
    {
        match self {
            RoleStatus::Done => "done",
            RoleStatus::Usage => "usage",
            RoleStatus::BadInput(_) => "bad input",
            RoleStatus::ReadFault => "read fault",
            RoleStatus::WriteFault => "write fault",
            RoleStatus::NetFault => "net fault",
            RoleStatus::SpawnFault => "spawn fault",
            RoleStatus::Closed(_) => "closed",
            RoleStatus::NoMemory => "no memory",
            RoleStatus::CookieFault => "cookie fault",
        }
    }

    /// Appends its text: its name, and the number of the PDU or the text of the cause.
    ///
    /// Fails where there is no memory for it; a front of the text may stand in `out` then.
    pub fn write(&self, out: &mut String) -> Result<(), AllocError>
        ensures { Writes (status_text self.now) result
            (string_bytes out.old) (string_bytes out.new) }
    {
        out.push_str(self.name())?;
        match self {
            RoleStatus::BadInput(pdu) => write_parts(&[Part::Text(" "), Part::Number(*pdu)], out),
            RoleStatus::Closed(cause) => {
                out.push_str(" ")?;
                write_cause(cause, out)
            }
            _ => Ok(()),
        }
    }
}

impl From<NodeEnd> for RoleStatus {
    ghost use Rattle.std.specs.Prelude.{◌≡◌};
    ghost use Rattle.rh_role_words.specs.Statuses.{status_of};

    ghost from_gives = { λ end status. status ≡ status_of end };

    fn from(end: NodeEnd) -> RoleStatus {
        match end {
            NodeEnd::Ended => RoleStatus::Done,
            NodeEnd::Closed(cause) => RoleStatus::Closed(cause),
            NodeEnd::BadInput(pdu) => RoleStatus::BadInput(pdu),
            NodeEnd::ReadFault => RoleStatus::ReadFault,
            NodeEnd::WriteFault => RoleStatus::WriteFault,
            NodeEnd::NetFault => RoleStatus::NetFault,
            NodeEnd::SpawnFault => RoleStatus::SpawnFault,
            NodeEnd::NoMemory => RoleStatus::NoMemory,
            NodeEnd::CookieFault => RoleStatus::CookieFault,
        }
    }
}

/// The status of a run whose nodes ended so: of several, that which is told first, and of several
/// nodes that closed, that of the first one.
pub fn status_of_ends(ends: &[NodeEnd]) -> RoleStatus
    ensures told_of_all { TellsOfAll ends.now result }
    ensures done { (result ≡ RoleStatus.Done) ↔ AllAre NodeEnd.Ended ends.now }
    ensures alike { (end : HowEnded) → 1 ≤ length ends.now → AllAre end ends.now
        → result ≡ status_of end }
{
    let mut first = NodeEnd::Ended;
    for end in ends.iter() {
        first = first.or(*end);
    }
    RoleStatus::from(first)
}
