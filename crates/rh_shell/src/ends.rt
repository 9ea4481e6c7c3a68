//! A node that is an end of the virtual connection.

use crate::course::Course;
use crate::end_role::{EndRole, GiveRefused, RecycleRefused};
use crate::shell::Shell;
use rh_line::{Cause, GiveFault, LineTake, RecycleFault, State, Take};
use rh_pdu::header::GREATEST_FRAG;

impl<R: EndRole> Shell<R> {
    ghost use Rattle.std.specs.Prelude.{◌≡◌};
    ghost use Rattle.rh_shell.specs.Ends as seen;

    /// The cause with which the node closed.
    fn cause(&self) -> Option<Cause>
        ensures { result ≡ seen.cause_of self.entry.now.course }
    {
        match self.course {
            Course::Going => None,
            Course::Closed(cause) | Course::Refusing { cause, .. } => Some(cause),
        }
    }

    /// A PDU is given to the other end.
    ///
    /// Refused with `Closed` exactly where the node closed, with that cause; else exactly where the
    /// role refuses it. After a refusal nothing has changed.
    pub fn give(&mut self, pdu: &[u8]) -> Result<(), GiveFault>
        ensures { (self.new, result) ≡ seen.give R.acts self.old pdu.now }
    {
        if let Some(cause) = self.cause() {
            return Err(GiveFault::Closed(cause));
        }
        match self.role.give(pdu) {
            Ok(()) => Ok(()),
            Err(GiveRefused::Closing) => Err(GiveFault::Closing),
            Err(GiveRefused::BadPdu(fault)) => Err(GiveFault::BadPdu(fault)),
            Err(GiveRefused::Full { held, len }) => Err(GiveFault::Full { held, len }),
        }
    }

    /// The next PDU of the other end is taken, where one is there, and put at the front of the
    /// room, which stays behind it.
    ///
    /// Answers `Closed` exactly where the node closed, with that cause; the room then stays.
    pub fn take(&mut self, room: &mut [u8; GREATEST_FRAG]) -> Take
        ensures answer { result ≡ seen.take_answer R.acts self.old }
        ensures room { room.new ≡ seen.room_after_take R.acts self.old room.old }
        ensures new { self.new ≡ seen.after_take R.acts self.old }
    {
        if let Some(cause) = self.cause() {
            return Take::Closed(cause);
        }
        match self.role.take(room) {
            LineTake::Pdu(len) => Take::Pdu(len),
            LineTake::Empty => Take::Empty,
            LineTake::Ended => Take::Ended,
        }
    }

    /// No PDU will be given any more. Where the node closed, nothing changes.
    pub fn close(&mut self)
        ensures { self.new ≡ seen.close R.acts self.old }
    {
        if self.is_going() {
            self.role.close();
        }
    }

    /// The channel on which the node writes is to be replaced.
    ///
    /// Refused with `NotOpen` exactly where the state isn't Open; else exactly where the role
    /// refuses it. After a refusal nothing has changed.
    pub fn recycle(&mut self) -> Result<(), RecycleFault>
        ensures { (self.new, result) ≡ seen.recycle R.acts R.rules self.old }
    {
        if self.state() != State::Open {
            return Err(RecycleFault::NotOpen);
        }
        match self.role.recycle() {
            Ok(()) => Ok(()),
            Err(RecycleRefused::Busy { under_way }) => Err(RecycleFault::Busy { under_way }),
            Err(RecycleRefused::Last) => Err(RecycleFault::Last),
        }
    }

    /// The numbers of the IN and the OUT channel in use, 1 at first; kept when the node ended or
    /// closed.
    pub fn channels(&self) -> (u32, u32)
        ensures { result ≡ R.acts.channels self.entry.now.role }
    {
        self.role.channels()
    }
}
