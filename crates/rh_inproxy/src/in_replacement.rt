//! Inbound replacement: a later ci leg over the same is leg, or a successor with an is leg of its
//! own (profile).

use crate::row::Row;
use crate::state::{
    ClientLeg, Entry, Handover, InProxyRole, Joining, Opener, Successor, Work, follow, same_cookie,
};
use rh_line::Which;
use rh_rts::Cookie;
use rh_shell::{Begun, Origin, Refused};
use rh_sig::Named;

impl InProxyRole {
    ghost use Rattle.std.specs.Prelude.{◌≡◌, [], true};
    ghost use Rattle.rh_shell.specs.Rules.{put_into};
    ghost use Rattle.rh_inproxy.specs.Answers.{is_some, taken};
    ghost use Rattle.rh_inproxy.specs.InReplacement as seen;

    // ---- IN_R1/A1

    /// A later ci leg, which is up, names its connection and the channel before it.
    fn join(
        &mut self,
        opener: &Opener,
        number: u32,
        connection: Cookie,
        predecessor: Cookie,
        channel: Cookie,
    ) -> Row
        requires { seen.is_newcomer self.old.successor number ≡ true }
        ensures { (self.new, result)
            ≡ seen.join self.old opener.now number connection predecessor channel }
    {
        if !same_cookie(&opener.connection, &connection) {
            return Err(Refused::Cookie {
                expected: opener.connection,
                got: connection,
            });
        }
        if !same_cookie(&self.current.cookie, &predecessor) {
            return Err(Refused::Cookie {
                expected: self.current.cookie,
                got: predecessor,
            });
        }
        let leg = ClientLeg {
            number,
            cookie: channel,
        };
        let behind = self.waiting.count(Origin::Forwarded);
        self.line.open_next(false);
        self.successor = Successor::Joined(leg, Joining::TellsServer { behind });
        Ok(())
    }

    /// Whether the ci leg of this number is up, and its first packet has not come.
    fn is_newcomer(&self, number: u32) -> bool
        ensures { result ≡ seen.is_newcomer self.now.successor number }
    {
        match self.successor {
            Successor::Up(newcomer) => newcomer == number,
            Successor::Absent | Successor::Joined(..) => false,
        }
    }

    pub(crate) fn on_in_r1_a1(
        &mut self,
        number: u32,
        connection: Cookie,
        predecessor: Cookie,
        channel: Cookie,
    ) -> Row
        ensures { (self.new, result)
            ≡ seen.on_in_r1_a1 self.old number connection predecessor channel }
    {
        if self.is_first(number) {
            return self.on_first_in_r1_a1(connection, predecessor, channel);
        }
        match self.opener_of() {
            Some(opener) if self.is_newcomer(number) => {
                self.join(&opener, number, connection, predecessor, channel)
            }
            _ => Err(Refused::Unexpected),
        }
    }

    // ---- IN_R2/A2

    /// Puts IN_R2/A2 in its turn.
    pub(crate) fn put_in_r2_a2(&mut self, begun: &mut Begun) -> bool
        requires { begun.old ≡ [] }
        ensures put { (self.new, begun.new) ≡ put_into self.old (seen.put_in_r2_a2 self.old) }
        ensures told { result ≡ is_some (seen.put_in_r2_a2 self.old) }
    {
        match self.successor {
            Successor::Joined(leg, Joining::TellsServer { behind: 0 }) => {
                self.successor = Successor::Joined(leg, Joining::Told);
                begun.begin_packet(&Named::InR2A2(leg.cookie));
                true
            }
            _ => false,
        }
    }

    // ---- IN_R1/A5

    /// The channel and its leg are finished, and the next one follows.
    fn finish(&mut self, leg: &ClientLeg) -> Row
        requires { self.old.line.has_next ≡ true }
        ensures { (self.new, result) ≡ taken (seen.finished self.old leg.now) }
    {
        self.line.finish();
        self.successor = Successor::Joined(*leg, Joining::Follows);
        follow(self.line.has_next(), &mut self.current, &mut self.successor);
        Ok(())
    }

    /// IN_R1/A5 on the current ci leg.
    fn finish_by(&mut self, cookie: Cookie) -> Row
        ensures { (self.new, result) ≡ seen.finish_by self.old self.old.successor cookie }
    {
        match self.successor {
            Successor::Absent => {
                self.handover = Handover::Came(cookie);
                Ok(())
            }
            Successor::Joined(leg, Joining::Told) => {
                if same_cookie(&leg.cookie, &cookie) {
                    self.finish(&leg)
                } else {
                    Err(Refused::Cookie {
                        expected: leg.cookie,
                        got: cookie,
                    })
                }
            }
            Successor::Up(_) | Successor::Joined(..) => Err(Refused::Unexpected),
        }
    }

    pub(crate) fn on_in_r1_a5(&mut self, which: Which, cookie: Cookie) -> Row
        ensures { (self.new, result) ≡ seen.on_in_r1_a5 self.old which cookie }
    {
        if self.has_a5(which) {
            return Err(Refused::Unexpected);
        }
        match which {
            Which::Current => self.finish_by(cookie),
            Which::Next => {
                self.handover = Handover::Came(cookie);
                Ok(())
            }
        }
    }

    // ---- IN_R1/A6

    /// Whether the newest channel is the current one and no PDU is left.
    fn is_last_empty(&self) -> bool
        ensures { result ≡ seen.is_last_empty self.now }
    {
        matches!(self.successor, Successor::Absent) && self.line.is_empty(Which::Current)
    }

    /// Puts IN_R1/A6, where the newest channel is the current one and no PDU is left.
    pub(crate) fn put_in_r1_a6(&mut self, begun: &mut Begun) -> bool
        requires { begun.old ≡ [] }
        ensures put { (self.new, begun.new) ≡ put_into self.old (seen.put_in_r1_a6 self.old) }
        ensures told { result ≡ is_some (seen.put_in_r1_a6 self.old) }
    {
        if !self.is_last_empty() {
            return false;
        }
        let Handover::Came(cookie) = self.handover else {
            return false;
        };
        self.handover = Handover::Passed;
        begun.begin_packet(&Named::InR1A6(cookie));
        true
    }

    // ---- what the server answers

    pub(crate) fn on_in_r1_b2(&mut self, size: u32) -> Row
        ensures { (self.new, result) ≡ seen.on_in_r1_b2 self.old size }
    {
        match self.opener_of() {
            Some(
                Opener {
                    entry: Entry::Replaces { .. },
                    ..
                },
            ) if self.awaits_edge() => self.open_window(size),
            _ => Err(Refused::Unexpected),
        }
    }

    pub(crate) fn on_in_r1_b1(&mut self) -> Row
        ensures { (self.new, result) ≡ seen.on_in_r1_b1 self.old }
    {
        if !matches!(self.handover, Handover::Passed) {
            return Err(Refused::Unexpected);
        }
        self.work = Work::Done;
        Ok(())
    }
}
