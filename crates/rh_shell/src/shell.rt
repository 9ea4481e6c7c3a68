//! A node: a role, its legs, and what is the same in all roles.
//!
//! # The theory of the shell
//!
//! A role is a machine over messages (`Role`): it owns what its decisions read, and knows no byte,
//! place, moment or cause. The shell owns these, and does in every role alike:
//!
//! * Bytes that come on a leg are a head or a greeting, and then frames. What is not whole is held.
//!   What a byte makes whole is tried in this order: the length of the body behind a head, the
//!   frame's header, the packet, its name and the ranges of its values, and then the role's row.
//!   The first that refuses it is the cause with which the node closes, at the place where that
//!   stands on the leg. A Ping does nothing, and is not counted among the packets of a leg.
//! * Bytes that go are those of the message that was begun. Where that is drawn to its end the role
//!   puts the next one, and is told when its last byte is drawn.
//! * A node works, until its role ended or until it closed (`Course`). Closed is final, with the
//!   first cause: nothing changes any more but the rest of a head that refuses a client's request.
//!   Where the role ended, what was begun is drawn to its end, and no more.
//! * A leg that is lost is only marked where the role goes on without it, and gives no more bytes.
//!   Else it closes the node. A leg is finished where it is marked, or where the role has no use
//!   for it and nothing is left to draw. A finished leg is forgotten when one of its kind comes up.
//! * A moment is first tried on the legs that were silent too long, in the order of legs, and then
//!   on those on which a Ping is due.
//!
//! All steps are defined byte by byte (`specs/Hearing`, `specs/Drawing`), so that it makes no
//! difference how bytes are cut. The code works in pieces: a frame that is whole inside a piece is
//! taken where it stands, and the work for a byte does not grow with the number of legs.

ghost use Rattle.std.specs.Prelude.{◌≡◌, ◌≤◌, ◌<◌, IfSome, None};
ghost use Rattle.rh_http.specs.Texts.{refusal_text};
ghost use Rattle.rh_shell.specs.Shells.{kind_number, is_before, is_at, place};
ghost use Rattle.rh_shell.specs.Shells.{is_free, free_place, one_if, is_unfinished, unfinished};
ghost use Rattle.rh_shell.specs.Shells.{room, room_of, is_silent_by, is_silent, earlier};
ghost use Rattle.rh_shell.specs.Shells.{first_silent, is_quiet_by, is_quiet, pinged};

use crate::answers::Phase;
use crate::begun::Begun;
use crate::course::Course;
use crate::near_end::NearEnd;
use crate::role::Role;
use crate::rooms::Rooms;
use crate::stop::Stop;
use rh_http::{Refusal, write_refusal};
use rh_line::{Cause, Leg, LegKind, State, Verdict};
use rh_rts::Cookie;
use std::alloc::{AllocError, Global};
use std::marker::Model;

/// A role with its legs.
///
/// Whoever drives it asks which legs it `wants` and lets legs come `up`; feeds what comes on a leg
/// by `bytes`, and writes what `draw` gives until that is 0; tells by `ended` and `broken` that a
/// leg was lost, and by `tick` the moment; and shuts a leg that is `finished`.
///
/// `new` takes all memory that the node will use.
#[derive(Drop)]
pub struct Shell<R> {
    pub(crate) role: R,
    legs: Vec<NearEnd>,
    pub(crate) course: Course,
    now: u64,
    rooms: Rooms,
}

impl<R> Model for Shell<R> {
    ghost use Rattle.std.specs.Prelude.{◌≤◌, vec_capacity};
    ghost use Rattle.rh_shell.specs.Shells as seen;

    ghost Value = { seen.Shell R };

    ghost view = { λ s. record {
      role = s.role;
      legs = s.legs.items;
      course = s.course;
      now = s.now;
      rooms = s.rooms;
    } };

    ghost invariant = { λ s. seen.room s.rooms ≤ vec_capacity s.legs };
}

/// The place of a kind in the order of legs.
fn kind_number(kind: LegKind) -> u8
    ensures { result ≡ kind_number kind }
{
    match kind {
        LegKind::ClientOut => 0,
        LegKind::OutServer => 1,
        LegKind::ClientIn => 2,
        LegKind::InServer => 3,
    }
}

/// Whether a leg is before another one in the order of legs.
fn is_before(a: Leg, b: Leg) -> bool
    ensures { result ≡ is_before a b }
{
    kind_number(a.kind) < kind_number(b.kind) || (a.kind == b.kind && a.number < b.number)
}

/// How many legs of a kind may be unfinished.
fn room_of(rooms: Rooms, kind: LegKind) -> usize
    ensures { result ≡ room_of rooms kind }
{
    usize::from(match kind {
        LegKind::ClientOut => rooms.client_out,
        LegKind::OutServer => rooms.out_server,
        LegKind::ClientIn => rooms.client_in,
        LegKind::InServer => rooms.in_server,
    })
}

/// How many legs may be unfinished.
fn room(rooms: Rooms) -> usize
    ensures { result ≡ room rooms }
{
    usize::from(rooms.client_out)
        + usize::from(rooms.out_server)
        + usize::from(rooms.client_in)
        + usize::from(rooms.in_server)
}

/// Whether this is the end of the leg.
fn is_at(leg: Leg, end: &NearEnd) -> bool
    ensures { result ≡ is_at leg end.now }
{
    end.leg() == leg
}

/// The place of a leg, or how many there are.
fn place(leg: Leg, legs: &[NearEnd]) -> usize
    ensures { result ≡ place leg legs.now }
{
    for i in 0..legs.len() {
        if is_at(leg, &legs[i]) {
            return i;
        }
    }
    legs.len()
}

/// Counts a leg that is unfinished and of this kind.
fn unfinished_one<R: Role>(role: &R, kind: LegKind, end: &NearEnd) -> usize
    ensures count { result ≡ one_if (is_unfinished R.rules role.now kind end.now) }
    ensures most { result ≤ 1 }
{
    if kind == end.leg().kind && !end.is_finished(role) {
        1
    } else {
        0
    }
}

/// Whether a leg is of this kind and finished.
fn is_free<R: Role>(role: &R, kind: LegKind, end: &NearEnd) -> bool
    ensures { result ≡ is_free R.rules role.now kind end.now }
{
    kind == end.leg().kind && end.is_finished(role)
}

/// The place of the first finished leg of a kind, or how many legs there are.
fn free_place<R: Role>(role: &R, kind: LegKind, legs: &[NearEnd]) -> usize
    ensures { result ≡ free_place R.rules role.now kind legs.now }
{
    for i in 0..legs.len() {
        if is_free(role, kind, &legs[i]) {
            return i;
        }
    }
    legs.len()
}

/// How many legs of a kind are not finished.
fn unfinished<R: Role>(role: &R, kind: LegKind, legs: &[NearEnd]) -> usize
    ensures { result ≡ unfinished R.rules role.now kind legs.now }
{
    let mut count = 0;
    for i in 0..legs.len() {
        count += unfinished_one(role, kind, &legs[i]);
    }
    count
}

fn is_silent_by(limit: Option<u32>, since: u64, now: u64) -> bool
    ensures { result ≡ is_silent_by limit since now }
{
    match limit {
        None => false,
        Some(limit) => now.saturating_sub(since) >= u64::from(limit),
    }
}

/// Whether an unfinished leg was silent as long as it may be.
fn is_silent<R: Role>(role: &R, now: u64, end: &NearEnd) -> bool
    ensures { result ≡ is_silent R.rules role.now now end.now }
{
    !end.is_finished(role) && is_silent_by(role.silence(end.leg()), end.since(), now)
}

/// The leg that is before the other one, each with the moment of its last bytes.
fn earlier(other: Option<(Leg, u64)>, one: (Leg, u64)) -> Option<(Leg, u64)>
    ensures { result ≡ earlier other one }
{
    match other {
        None => Some(one),
        Some(other) => {
            if is_before(one.0, other.0) {
                Some(one)
            } else {
                Some(other)
            }
        }
    }
}

/// The first silent leg in the order of legs.
fn first_silent<R: Role>(role: &R, now: u64, legs: &[NearEnd]) -> Option<(Leg, u64)>
    ensures { result ≡ first_silent R.rules role.now now legs.now None }
{
    let mut first = None;
    for i in 0..legs.len() {
        let end = &legs[i];
        if is_silent(role, now, end) {
            first = earlier(first, (end.leg(), end.since()));
        }
    }
    first
}

fn is_quiet_by(time: Option<u64>, put_at: u64, now: u64) -> bool
    ensures { result ≡ is_quiet_by time put_at now }
{
    match time {
        None => false,
        Some(time) => 2 * u128::from(now.saturating_sub(put_at)) >= u128::from(time),
    }
}

/// Whether nothing was put on an unfinished leg for half of its time.
fn is_quiet<R: Role>(role: &R, now: u64, end: &NearEnd) -> bool
    ensures { result ≡ is_quiet R.rules role.now now end.now }
{
    !end.is_finished(role) && is_quiet_by(role.ping_after(end.leg()), end.put_at(), now)
}

/// Pings become due.
fn ping<R: Role>(role: &mut R, now: u64, legs: &[NearEnd])
    ensures { role.new ≡ pinged R.rules now legs.now role.old }
{
    for i in 0..legs.len() {
        let end = &legs[i];
        if is_quiet(role, now, end) {
            role.ping(end.leg());
        }
    }
}

/// The head of a refusal, still to be drawn.
fn refusal_head(refusal: Refusal) -> Begun
    ensures { result ≡ refusal_text refusal }
{
    let mut text = [0; 64];
    let mut head = Begun::new();
    match write_refusal(refusal, &mut text) {
        Ok(len) => head.begin(&text[..len]),
        Err(_) => unreachable!(),
    }
    head
}

impl<R: Role> Shell<R> {
    ghost use Rattle.std.specs.Prelude.{IfOk, Some, false, IsTrue, length, take, drop};
    ghost use Rattle.rh_shell.specs.Shells as seen;

    /// A node whose role is this, with no leg, and with room for so many.
    pub fn new(alloc: Global, role: R, rooms: Rooms) -> Result<Shell<R>, AllocError>
        ensures { IfOk result (λ node. node ≡ seen.begun role rooms) }
    {
        Ok(Shell {
            role,
            legs: Vec::with_capacity(alloc, room(rooms))?,
            course: Course::Going,
            now: 0,
            rooms,
        })
    }

    /// The role.
    pub fn role(&self) -> &R
        ensures { result.now ≡ self.entry.now.role }
    {
        &self.role
    }

    /// The last moment, in milliseconds; 0 before the first.
    pub fn now(&self) -> u64
        ensures { result ≡ self.entry.now.now }
    {
        self.now
    }

    /// The state: a closed one keeps its first cause.
    pub fn state(&self) -> State
        ensures { result ≡ seen.state_of R.rules self.entry.now }
    {
        match self.course {
            Course::Closed(cause) | Course::Refusing { cause, .. } => State::Closed(cause),
            Course::Going => match self.role.phase() {
                Phase::Opening => State::Opening,
                Phase::Open => State::Open,
                Phase::Ended => State::Ended,
            },
        }
    }

    fn verdict(&self) -> Verdict
        ensures { (self.entry.now, result) ≡ seen.with_verdict R.rules self.entry.now }
    {
        match self.state() {
            State::Closed(cause) => Verdict::Closed(cause),
            State::Ended => Verdict::Ended,
            State::Opening | State::Open => Verdict::Going,
        }
    }

    /// Whether the node is neither Ended nor Closed.
    fn is_working(&self) -> bool
        ensures { result ≡ seen.is_working R.rules self.entry.now }
    {
        matches!(self.state(), State::Opening | State::Open)
    }

    /// Whether one more leg of the kind may be unfinished.
    fn has_room(&self, kind: LegKind) -> bool
        ensures { result ≡ seen.has_room R.rules self.entry.now kind }
    {
        unfinished(&self.role, kind, &self.legs) < room_of(self.rooms, kind) && self.has_place(kind)
    }

    /// Whether a leg of the kind is finished, or fewer legs are kept than there is room for.
    fn has_place(&self, kind: LegKind) -> bool
        ensures { result ≡ seen.has_place R.rules self.entry.now kind }
    {
        free_place(&self.role, kind, &self.legs) < self.legs.len()
            || self.legs.len() < room(self.rooms)
    }

    /// Whether the node asks for this leg to be connected.
    pub fn wants(&self, leg: Leg) -> bool
        ensures { result ≡ seen.wants R.rules self.entry.now leg }
    {
        self.is_working() && self.has_room(leg.kind) && self.role.wants(leg)
    }

    /// Whether the leg is wanted, or may be accepted.
    pub fn may_up(&self, leg: Leg) -> bool
        ensures { result ≡ seen.may_up R.rules self.entry.now leg }
    {
        self.is_working() && self.has_room(leg.kind) && self.role.may_up(leg)
    }

    /// The leg is up; the cookie names the channel of a client's leg, and is passed over elsewhere.
    /// Where the leg may not be up, nothing changes.
    pub fn up(&mut self, leg: Leg, cookie: Cookie)
        ensures { self.new ≡ seen.up R.rules self.old leg cookie }
    {
        if self.may_up(leg) {
            self.seat(leg, cookie);
        }
    }

    /// The leg takes the place of a finished one of its kind, or stands behind all.
    fn seat(&mut self, leg: Leg, cookie: Cookie)
        requires { IsTrue (seen.has_room R.rules self.old leg.kind) }
        ensures { self.new ≡ seen.with_leg R.rules self.old leg cookie }
    {
        let pipe = self.role.pipe(leg);
        let new = NearEnd::new(leg, pipe, self.now);
        let at = free_place(&self.role, leg.kind, &self.legs);
        if at < self.legs.len() {
            self.legs[at] = new;
        } else {
            let Ok(()) = self.legs.push(new) else {
                unreachable!()
            };
        }
        self.role.up(leg, cookie);
    }

    /// The node closes, with a refusal on that leg or with none.
    fn stop(&mut self, leg: Leg, stop: Stop)
        ensures { self.new ≡ seen.stopped self.old leg (Some stop) }
    {
        self.course = match stop.refusal {
            None => Course::Closed(stop.cause),
            Some(refusal) => Course::Refusing {
                cause: stop.cause,
                leg,
                rest: refusal_head(refusal),
            },
        };
    }

    /// Whether the node isn't closed.
    pub(crate) fn is_going(&self) -> bool
        ensures { result ≡ seen.is_going self.entry.now.course }
    {
        matches!(self.course, Course::Going)
    }

    /// A piece came on the leg. On a leg that isn't up, is marked or is finished it is passed over.
    ///
    /// Answers `Closed` with the first cause, exactly where the node closed; `Ended` exactly where
    /// the role ended.
    pub fn bytes(&mut self, leg: Leg, piece: &[u8]) -> Verdict
        ensures { (self.new, result) ≡ seen.bytes R.rules self.old leg piece.now }
    {
        if self.is_going() {
            self.hear(leg, piece);
        }
        self.verdict()
    }

    /// A piece came on the leg of a node that isn't closed.
    fn hear(&mut self, leg: Leg, piece: &[u8])
        ensures { self.new
            ≡ seen.bytes_at R.rules self.old leg piece.now (seen.end_at self.old leg) }
    {
        let at = place(leg, &self.legs);
        if at < self.legs.len() {
            let stop = self.legs[at].hear(&mut self.role, self.now, piece);
            if let Some(stop) = stop {
                self.stop(leg, stop);
            }
        }
    }

    /// The other side ended the leg in order. On a leg that is finished nothing changes.
    pub fn ended(&mut self, leg: Leg) -> Verdict
        ensures { (self.new, result) ≡ seen.ended R.rules self.old leg }
    {
        let at = place(leg, &self.legs);
        if self.is_going() && at < self.legs.len() {
            let partial = self.legs[at].held();
            self.lose(leg, at, Cause::LegEnded { leg, partial });
        }
        self.verdict()
    }

    /// The leg failed, or a wanted one cannot be connected. On a leg that is finished nothing
    /// changes.
    pub fn broken(&mut self, leg: Leg) -> Verdict
        ensures { (self.new, result) ≡ seen.broken R.rules self.old leg }
    {
        let at = place(leg, &self.legs);
        if self.is_going() {
            if at < self.legs.len() {
                self.lose(leg, at, Cause::LegBroken { leg });
            } else if self.wants(leg) {
                self.unreached(leg);
            }
        }
        self.verdict()
    }

    /// Whether the client may be told something on the leg.
    fn is_heard(&self, leg: Leg) -> bool
        ensures { result ≡ seen.is_heard (seen.end_at self.entry.now leg) }
    {
        let at = place(leg, &self.legs);
        at < self.legs.len() && !self.legs[at].is_marked()
    }

    /// The node closes, and the client is told that the leg cannot be connected.
    fn unreached(&mut self, leg: Leg)
        ensures { self.new ≡ seen.unreached R.rules self.old leg }
    {
        let cause = Cause::LegBroken { leg };
        if let Some(client) = self.role.answers_on() {
            if self.is_heard(client) {
                self.course = Course::Refusing {
                    cause,
                    leg: client,
                    rest: refusal_head(Refusal::Unavailable),
                };
                return;
            }
        }
        self.course = Course::Closed(cause);
    }

    /// A leg that is up is lost: it is marked, or the node closes.
    fn lose(&mut self, leg: Leg, at: usize, cause: Cause)
        requires there { at ≡ seen.place leg self.old.legs }
        requires below { at < length self.old.legs }
        ensures { IfSome (seen.end_at self.old leg) (λ end.
            self.new ≡ seen.lost R.rules self.old leg end cause) }
    {
        if self.legs[at].is_finished(&self.role) {
            return;
        }
        let is_ended = self.role.phase() == Phase::Ended;
        if !is_ended && !self.role.only_marks(leg) {
            self.course = Course::Closed(cause);
            return;
        }
        self.legs[at].mark();
        if !is_ended {
            self.role.mark(leg);
        }
    }

    /// Puts the next bytes of the leg into the front of the room, and answers how many: as many as
    /// may go, as long as there is room.
    pub fn draw(&mut self, leg: Leg, room: &mut [u8]) -> usize
        ensures drawn { (self.new, take result room.new)
            ≡ seen.drawn R.rules self.old leg (length room.old) }
        ensures rest { drop result room.new ≡ drop result room.old }
        ensures fits { result ≤ length room.old }
    {
        if !self.is_going() {
            return self.draw_refusal(leg, room);
        }
        let at = place(leg, &self.legs);
        if at < self.legs.len() && !self.legs[at].is_marked() {
            return self.legs[at].draw(&mut self.role, self.now, room);
        }
        0
    }

    /// Puts the rest of a refusal into the room, where this is its leg.
    fn draw_refusal(&mut self, leg: Leg, room: &mut [u8]) -> usize
        requires { seen.is_going self.old.course ≡ false }
        ensures drawn { (self.new, take result room.new)
            ≡ seen.drawn R.rules self.old leg (length room.old) }
        ensures rest { drop result room.new ≡ drop result room.old }
        ensures fits { result ≤ length room.old }
    {
        if let Course::Refusing {
            leg: client,
            rest,
            ..
        } = &mut self.course
        {
            if *client == leg {
                return rest.draw(room);
            }
        }
        0
    }

    /// Whether there is no use for the leg any more and nothing is left to draw. False of a leg
    /// that never was up, unless the node closed.
    pub fn finished(&self, leg: Leg) -> bool
        ensures { result ≡ seen.finished R.rules self.entry.now leg }
    {
        match &self.course {
            Course::Closed(_) => true,
            Course::Refusing {
                leg: client,
                rest,
                ..
            } => *client != leg || rest.is_empty(),
            Course::Going => {
                let at = place(leg, &self.legs);
                if at < self.legs.len() {
                    self.legs[at].is_finished(&self.role)
                } else {
                    self.role.was_up(leg)
                }
            }
        }
    }

    /// The moment, in milliseconds. One below the last moment changes nothing.
    pub fn tick(&mut self, now: u64) -> Verdict
        ensures { (self.new, result) ≡ seen.tick R.rules self.old now }
    {
        if self.is_working() && self.now <= now {
            self.now = now;
            self.pass();
        }
        self.verdict()
    }

    /// Time passes.
    fn pass(&mut self)
        ensures { self.new ≡ seen.passed R.rules self.old }
    {
        if let Some((leg, since)) = first_silent(&self.role, self.now, &self.legs) {
            self.course = Course::Closed(Cause::Silent {
                leg,
                since,
                now: self.now,
            });
        } else {
            ping(&mut self.role, self.now, &self.legs);
        }
    }
}
