//! The channels by their numbers, and which replacement begins.

ghost use Rattle.std.specs.Prelude.{◌≡◌};
ghost use Rattle.rh_client.specs.State.{ci, co};

use crate::channels::{InChannel, LAST_NUMBER, OutChannel};
use crate::replacement::{InStage, OutStage, Replacement, Waits};
use crate::state::ClientRole;
use rh_line::{Leg, LegKind, Which};
use rh_shell::Phase;

impl ClientRole {
    ghost use Rattle.std.specs.Prelude.{◌≡◌};
    ghost use Rattle.rh_client.specs.State as seen;

    pub(crate) fn is_opening(&self) -> bool
        ensures { result ≡ seen.is_opening self.now.phase }
    {
        matches!(self.phase, Phase::Opening)
    }

    pub(crate) fn is_open(&self) -> bool
        ensures { result ≡ seen.is_open self.now.phase }
    {
        matches!(self.phase, Phase::Open)
    }

    /// Whether this is the number of the writing channel.
    pub(crate) fn is_writing(&self, number: u32) -> bool
        ensures { result ≡ seen.is_writing self.now number }
    {
        number == self.writing.number
    }

    /// Whether it is that of the writing channel's successor.
    pub(crate) fn is_in_successor(&self, number: u32) -> bool
        ensures { result ≡ seen.is_in_successor self.now number }
    {
        self.replacement.is_in() && number == self.in_successor.number
    }

    /// Whether it is that of the current channel.
    pub(crate) fn is_current(&self, number: u32) -> bool
        ensures { result ≡ seen.is_current self.now number }
    {
        number == self.current.number
    }

    /// Whether it is that of the current channel's successor.
    pub(crate) fn is_out_successor(&self, number: u32) -> bool
        ensures { result ≡ seen.is_out_successor self.now number }
    {
        self.replacement.is_out() && number == self.out_successor.number
    }

    /// The replacement of the writing channel begins, and this waits behind it. None does where the
    /// channel has the last number.
    pub(crate) fn begin_in(&mut self, out_waits: bool)
        ensures { self.new ≡ seen.begin_in self.old out_waits }
    {
        if self.writing.number < LAST_NUMBER {
            self.in_successor = InChannel::unopened(self.writing.number + 1, self.config.lifetime);
            self.replacement = Replacement::In {
                stage: InStage::Asked,
                out_waits,
            };
        } else {
            self.replacement = Replacement::NoneUnderWay;
        }
    }

    /// The replacement of the current channel begins, and these wait behind it. None does where the
    /// channel has the last number.
    pub(crate) fn begin_out(&mut self, waits: Waits)
        ensures { self.new ≡ seen.begin_out self.old waits }
    {
        if self.current.number < LAST_NUMBER {
            self.out_successor = OutChannel::unopened(self.current.number + 1);
            self.replacement = Replacement::Out {
                stage: OutStage::Asked,
                waits,
            };
        } else {
            self.replacement = Replacement::NoneUnderWay;
        }
    }

    /// The replacement of an IN channel is over: what waits goes on.
    pub(crate) fn after_in(&mut self, out_waits: bool)
        ensures { self.new ≡ seen.after_in self.old out_waits }
    {
        if out_waits {
            self.begin_out(Waits::Nothing);
        } else {
            self.replacement = Replacement::NoneUnderWay;
        }
    }

    /// The replacement of an OUT channel is over: what waits goes on, the one first that was wanted
    /// first.
    pub(crate) fn after_out(&mut self, waits: Waits)
        ensures { self.new ≡ seen.after_out self.old waits }
    {
        match waits {
            Waits::Nothing => self.replacement = Replacement::NoneUnderWay,
            Waits::In => self.begin_in(false),
            Waits::Out => self.begin_out(Waits::Nothing),
            Waits::InThenOut => self.begin_in(true),
            Waits::OutThenIn => self.begin_out(Waits::In),
        }
    }

    /// Whether the work is done.
    pub(crate) fn is_over(&self) -> bool
        ensures { result ≡ seen.is_over self.now }
    {
        self.is_closing
            && self.writing.is_end_put
            && self.line.is_over(Which::Current)
            && self.replacement.is_none()
    }

    /// The client ends, where its work is done.
    pub(crate) fn settle(&mut self)
        ensures { self.new ≡ seen.settled self.old }
    {
        if self.is_over() {
            self.phase = Phase::Ended;
        }
    }
}

/// The client's leg of an IN channel.
pub(crate) fn ci(number: u32) -> Leg
    ensures { result ≡ ci number }
{
    Leg {
        kind: LegKind::ClientIn,
        number,
    }
}

/// The client's leg of an OUT channel.
pub(crate) fn co(number: u32) -> Leg
    ensures { result ≡ co number }
{
    Leg {
        kind: LegKind::ClientOut,
        number,
    }
}
