//! What a server keeps.

ghost use Rattle.std.specs.Prelude.{◌≡◌};
ghost use Rattle.rh_server.specs.States.{same_cookie, in_place, out_place};

use crate::out_line::{Kind, OutLine};
use rh_keep::Meter;
use rh_line::{RecvLine, SendLine};
use rh_rts::Cookie;
use rh_shell::Phase;
use rh_window::SendWindow;
use std::marker::Model;

/// How far a server has come.
#[derive(Clone, Copy)]
pub enum Stage {
    /// Neither CONN/A2 nor CONN/B2 came.
    Waits,
    /// CONN/A2 came, with this cookie of the connection.
    OutCame(Cookie),
    /// CONN/B2 came, with this cookie of the connection and the in proxy's numbers: bytes and
    /// milliseconds.
    InCame {
        connection: Cookie,
        window: u32,
        timeout: u32,
    },
    /// Both came, with this cookie.
    Open(Cookie),
    /// The work is done.
    Ended,
}

/// Whether PDUs may still be given.
#[derive(Clone, Copy)]
pub enum Giving {
    Going,
    /// It was told that none will be given any more.
    Closing,
}

/// Whether END/B1 was put on the writing channel.
#[derive(Clone, Copy)]
pub enum EndMark {
    Unput,
    Put,
}

impl EndMark {
    ghost use Rattle.std.specs.Prelude.{◌≡◌};
    ghost use Rattle.rh_server.specs.States.{is_put};

    pub(crate) fn is_put(self) -> bool
        ensures { result ≡ is_put self }
    {
        matches!(self, EndMark::Put)
    }
}

/// Whether the greeting was put on a leg.
#[derive(Clone, Copy)]
pub enum Greeting {
    Due,
    Put,
}

/// Whether the in proxy was told the window of the current IN channel.
#[derive(Clone, Copy)]
pub enum Edge {
    Told,
    /// IN_R1/B2 is still to be put.
    Shut,
}

/// What came first on an is leg.
#[derive(Clone, Copy)]
pub enum InStage {
    /// Nothing came.
    Fresh,
    /// IN_R1/A2 came, and its channel waits until the one before it is current; END may have come.
    /// The in proxy's numbers are bytes and milliseconds.
    Waits {
        window: u32,
        timeout: u32,
        ended: bool,
    },
    /// Its channel is open, or was.
    Opened,
}

/// What tells the in proxy the window of an is leg's channel, until it is put.
#[derive(Clone, Copy)]
pub enum Tells {
    Nothing,
    ConnB3,
    InR1B2,
}

/// How far an is leg is from its end.
#[derive(Clone, Copy)]
pub enum Leaving {
    Stays,
    /// IN_R1/A6 came, and IN_R1/B1 is due.
    InR1B1,
    /// IN_R1/B1 was put: there is no use for the leg any more.
    Left,
    /// The leg is lost behind END, while its channel waits, which is kept.
    Lost,
}

impl Leaving {
    ghost use Rattle.std.specs.Prelude.{◌≡◌};
    ghost use Rattle.rh_server.specs.States.{stays};

    /// Whether no IN_R1/A6 came on the leg.
    pub(crate) fn stays(self) -> bool
        ensures { result ≡ stays self }
    {
        matches!(self, Leaving::Stays | Leaving::Lost)
    }
}

/// What a server keeps of an is leg until the leg is finished.
#[derive(Clone, Copy)]
pub struct InLeg {
    pub number: u32,
    pub greeting: Greeting,
    /// The cookie with which its first channel was opened.
    pub cookie: Cookie,
    pub stage: InStage,
    pub tells: Tells,
    pub leaving: Leaving,
}

/// The channel that an is leg carries.
#[derive(Clone, Copy)]
pub struct InChannel {
    /// The number of the leg.
    pub leg: u32,
    /// The number of the newest channel on the leg.
    pub number: u32,
    /// The cookie with which the leg was opened.
    pub cookie: Cookie,
}

/// The newest is leg on which a packet came, and the cookie of the newest channel there.
#[derive(Clone, Copy)]
pub struct Newest {
    pub leg: u32,
    pub cookie: Cookie,
}

/// What a server keeps of an os leg until the leg is finished.
#[derive(Drop)]
pub struct OutLeg {
    pub(crate) number: u32,
    pub(crate) greeting: Greeting,
    /// The cookie of its channel; `None` where nothing came on it.
    pub(crate) cookie: Option<Cookie>,
    pub(crate) window: SendWindow,
    pub(crate) meter: Meter,
}

/// A replacement of the writing OUT channel.
#[derive(Clone, Copy)]
pub enum Replacement {
    Steady,
    /// OUT_R1/A1 is due, or was put.
    Asked,
    /// OUT_R1/A4 came, with the successor's cookie; OUT_R1/A5 is due, or was put.
    Answered(Cookie),
    /// OUT_R1/A8 came; OUT_R1/A9 is due.
    Confirmed,
}

impl InLeg {
    ghost use Rattle.std.specs.Prelude.{◌≡◌};
    ghost use Rattle.rh_server.specs.InReplacement.{opened_leg};

    /// The leg with its channel open, whose window IN_R1/B2 is to tell.
    pub(crate) fn opened(self) -> InLeg
        ensures { result ≡ opened_leg self }
    {
        InLeg {
            stage: InStage::Opened,
            tells: Tells::InR1B2,
            ..self
        }
    }
}

impl Newest {
    ghost use Rattle.std.specs.Prelude.{◌≡◌};
    ghost use Rattle.rh_server.specs.InReplacement.{newest_by};

    /// A leg carries a channel with a new cookie.
    pub(crate) fn carries(&mut self, number: u32, successor: Cookie)
        ensures { self.new ≡ newest_by self.old number successor }
    {
        if number == self.leg {
            self.cookie = successor;
        }
    }
}

impl OutLeg {
    ghost use Rattle.std.specs.Prelude.{◌≡◌};
    ghost use Rattle.rh_server.specs.OutLegs.{begun};

    /// Its channel begins.
    pub(crate) fn begins(&mut self, cookie: Cookie, window: u32, meter: Meter)
        ensures { self.new ≡ begun self.old cookie window meter }
    {
        self.cookie = Some(cookie);
        self.window = SendWindow::new(window);
        self.meter = meter;
    }
}

/// The server's role: its state without the bytes of its legs.
#[derive(Drop)]
pub struct ServerRole {
    /// The size of each IN channel's window, in bytes.
    pub(crate) window: u32,
    pub(crate) stage: Stage,
    // the PDUs that come
    pub(crate) line: RecvLine,
    pub(crate) current: InChannel,
    pub(crate) next: InChannel,
    pub(crate) edge: Edge,
    pub(crate) is_left: bool,
    pub(crate) newest: Newest,
    pub(crate) newest_in: u32,
    pub(crate) ins: Vec<InLeg>,
    // the PDUs that go
    pub(crate) queue: SendLine,
    pub(crate) giving: Giving,
    pub(crate) writing: u32,
    pub(crate) end_mark: EndMark,
    pub(crate) replacement: Replacement,
    pub(crate) out_line: OutLine,
    pub(crate) newest_out: u32,
    pub(crate) outs: Vec<OutLeg>,
}

/// How many legs of a kind are kept: those that are unfinished.
pub const LEGS: u8 = 4;

impl Model for ServerRole {
    ghost use Rattle.std.specs.Prelude.{◌≡◌, ◌≤◌, vec_capacity};
    ghost use Rattle.rh_server.specs.declared.state.TheConstants.{LEGS};
    ghost use Rattle.rh_server.specs.States as seen;

    ghost Value = { seen.Server };

    ghost view = { λ s. record {
      stage = s.stage;
      line = s.line;
      current = s.current;
      next = s.next;
      edge = s.edge;
      newest = s.newest;
      newest_in = s.newest_in;
      ins = s.ins.items;
      queue = s.queue;
      giving = s.giving;
      writing = s.writing;
      end_mark = s.end_mark;
      replacement = s.replacement;
      waiting = s.out_line;
      newest_out = s.newest_out;
      outs = s.outs.items;
    } };

    // the size and the flag are what the line keeps to itself; a window that is still to be told is
    // shut, and so is that of a next channel; and there is room for four legs of a kind
    ghost invariant = { λ s.
        (s.window ≡ s.line.size)
        × (s.is_left ≡ s.line.finished)
        × (seen.IsEdge s.edge s.line)
        × (s.line.next.window.told ≡ 0)
        × (LEGS ≤ vec_capacity s.ins)
        × (LEGS ≤ vec_capacity s.outs) };
}

// What reads or changes one part alone: the rows are made of these, so that few of them look at all
// that the role keeps.
impl ServerRole {
    ghost use Rattle.std.specs.Prelude.{◌≡◌};
    ghost use Rattle.rh_server.specs.OutLines.{waits};
    ghost use Rattle.rh_server.specs.States as seen;

    pub(crate) fn stage_now(&self) -> Stage
        ensures { result ≡ self.now.stage }
    {
        self.stage
    }

    pub(crate) fn set_stage(&mut self, stage: Stage)
        ensures { self.new ≡ seen.with_stage self.old stage }
    {
        self.stage = stage;
    }

    /// Whether a packet of the server's own of this kind waits.
    pub(crate) fn waits(&self, kind: Kind) -> bool
        ensures { result ≡ waits kind self.now.waiting }
    {
        self.out_line.waits(kind)
    }

    /// The number of the writing OUT channel.
    pub(crate) fn writing_now(&self) -> u32
        ensures { result ≡ self.now.writing }
    {
        self.writing
    }

    /// The size of each IN channel's window, in bytes.
    pub(crate) fn window_size(&self) -> u32
        ensures { result ≡ self.now.line.size }
    {
        self.window
    }

    /// Whether no PDU will be given any more.
    pub(crate) fn is_closing(&self) -> bool
        ensures { result ≡ seen.is_closing self.now.giving }
    {
        matches!(self.giving, Giving::Closing)
    }

    /// Whether both first packets came, and the work is not done.
    pub(crate) fn is_open(&self) -> bool
        ensures { result ≡ seen.is_open self.now.stage }
    {
        matches!(self.stage, Stage::Open(_))
    }

    pub(crate) fn phase_now(&self) -> Phase
        ensures { result ≡ seen.phase_of self.now.stage }
    {
        match self.stage {
            Stage::Waits | Stage::OutCame(_) | Stage::InCame { .. } => Phase::Opening,
            Stage::Open(_) => Phase::Open,
            Stage::Ended => Phase::Ended,
        }
    }

    /// The place among the is legs that are kept.
    pub(crate) fn in_place(&self, number: u32) -> Option<usize>
        ensures { result ≡ seen.in_place number self.now.ins }
    {
        in_place(number, &self.ins)
    }

    /// An is leg that is kept.
    pub(crate) fn in_leg(&self, number: u32) -> Option<InLeg>
        ensures { result ≡ seen.in_leg number self.now.ins }
    {
        let place = self.in_place(number)?;
        Some(self.ins[place])
    }

    /// An is leg that is kept has changed.
    pub(crate) fn set_in(&mut self, leg: InLeg)
        ensures { self.new ≡ seen.with_in self.old leg }
    {
        if let Some(place) = self.in_place(leg.number) {
            self.ins[place] = leg;
        }
    }

    /// An is leg is forgotten.
    pub(crate) fn forget_in(&mut self, number: u32)
        ensures { self.new ≡ seen.without_in self.old number }
    {
        if let Some(place) = self.in_place(number) {
            self.ins.remove(place);
        }
    }

    /// The place among the os legs that are kept.
    pub(crate) fn out_place(&self, number: u32) -> Option<usize>
        ensures { result ≡ seen.out_place number self.now.outs }
    {
        out_place(number, &self.outs)
    }

    /// The cookie of an os leg's channel.
    pub(crate) fn out_cookie(&self, number: u32) -> Option<Cookie>
        ensures { result ≡ seen.out_cookie number self.now.outs }
    {
        let place = self.out_place(number)?;
        self.outs[place].cookie
    }

    /// An os leg is forgotten.
    pub(crate) fn forget_out(&mut self, number: u32)
        ensures { self.new ≡ seen.without_out self.old number }
    {
        if let Some(place) = self.out_place(number) {
            self.outs.remove(place);
        }
    }
}

/// The place of an is leg among legs.
fn in_place(number: u32, legs: &[InLeg]) -> Option<usize>
    ensures { result ≡ in_place number legs.now }
{
    legs.iter().position(|leg| leg.number == number)
}

/// The place of an os leg among legs.
fn out_place(number: u32, legs: &[OutLeg]) -> Option<usize>
    ensures { result ≡ out_place number legs.now }
{
    legs.iter().position(|leg| leg.number == number)
}

/// Whether two cookies are the same.
pub(crate) fn same_cookie(one: Cookie, other: Cookie) -> bool
    ensures { result ≡ same_cookie one other }
{
    one.0.as_slice() == other.0.as_slice()
}
