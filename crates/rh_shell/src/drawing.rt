//! Bytes are drawn from a leg.

ghost use Rattle.std.specs.Prelude.{◌≡◌, ◌≤◌, ◌++◌, length, take, drop, min, []};
ghost use Rattle.rh_shell.specs.Drawing as seen;

use crate::near_end::NearEnd;
use crate::role::Role;

impl NearEnd {
    /// The role puts the next message, where the last one is drawn to its end and one may go.
    fn fill<R: Role>(&mut self, role: &mut R, now: u64)
        ensures { seen.drawn self.new role.new [] ≡ seen.filled R.rules now self.old role.old }
    {
        if self.is_drawn() && !self.is_over(role) {
            role.put(self.leg, &mut self.begun);
            if !self.begun.is_empty() {
                self.put_at = now;
            }
        }
    }

    /// Draws from the message that was begun, and tells the role where that is its end.
    fn drain<R: Role>(&mut self, role: &mut R, room: &mut [u8]) -> usize
        ensures count { result ≡ min (length room.old) (length self.old.begun) }
        ensures room { room.new ≡ take result self.old.begun ++ drop result room.old }
        ensures left { seen.drawn self.new role.new []
            ≡ seen.left_by R.rules self.old role.old (drop result self.old.begun) }
    {
        let count = self.begun.draw(room);
        if self.begun.is_empty() {
            role.drawn(self.leg);
        }
        count
    }

    /// Draws into the room as long as something may go, and answers how many bytes.
    pub(crate) fn draw<R: Role>(&mut self, role: &mut R, now: u64, room: &mut [u8]) -> usize
        ensures fits { result ≤ length room.old }
        ensures drawn { seen.drawn self.new role.new (take result room.new)
            ≡ seen.draw R.rules now (length room.old) self.old role.old }
        ensures rest { drop result room.new ≡ drop result room.old }
    {
        let mut count = 0;
        'messages: loop {
            if count == room.len() {
                return count;
            }
            self.fill(role, now);
            if self.is_drawn() {
                return count;
            }
            count += self.drain(role, &mut room[count..]);
        }
    }
}
