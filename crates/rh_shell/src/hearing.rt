//! Bytes come on a leg.

ghost use Rattle.std.specs.Prelude.{◌≡◌, ◌≤◌, ◌<◌, ℕ, [], length, take, drop, IfSome};
ghost use Rattle.rh_http.specs.Reading.{greatest_head};
ghost use Rattle.rh_pdu.specs.Frames.{IsFrame};
ghost use Rattle.rh_shell.specs.Intakes.{counted, length_told};
ghost use Rattle.rh_shell.specs.Texts.{IsWithin};
ghost use Rattle.rh_shell.specs.Keeping.{ReadsBody, room, overran, after_row};
ghost use Rattle.rh_shell.specs.Closing.{after_head, after_greeting};
ghost use Rattle.rh_shell.specs.Hearing as seen;
ghost use Rattle.rh_shell.specs.Readings.{packet_of};
ghost use Rattle.rh_shell.specs.declared.stage.Stage.TheVariants as stage;

use crate::answers::{Behind, Count, HeadRefused, HeadTaken, Refused};
use crate::heading::Heading;
use crate::near_end::NearEnd;
use crate::reading::{PacketFault, read_packet};
use crate::role::Role;
use crate::stage::{Body, Stage};
use crate::stop::Stop;
use crate::text::GREETING_LEN;
use rh_http::Refusal;
use rh_line::{Cause, Leg};
use rh_pdu::header::{HEADER_LEN, PTYPE_AT, RTS};
use rh_pdu::{Feed, Framer, Header};
use rh_sig::{Named, Pipe, SigFault};

/// What a server says first on a leg (profile).
pub const GREETING: [u8; GREETING_LEN] = *b"ncacn_http/1.0";

/// A cause with no refusal.
fn stop(cause: Cause) -> Stop
    ensures { result ≡ seen.stop cause }
{
    Stop {
        cause,
        refusal: None,
    }
}

/// Why a head is not taken whose end is at this place.
fn stop_head(leg: Leg, place: u32, why: HeadRefused) -> Stop
    ensures { result ≡ seen.stop_head leg place why }
{
    match why {
        HeadRefused::Request(fault) => Stop {
            cause: Cause::BadHead { leg, place, fault },
            refusal: Some(Refusal::from(fault)),
        },
        HeadRefused::Response(fault) => stop(Cause::BadHead { leg, place, fault }),
        HeadRefused::Status(status) => stop(Cause::HttpRefused { leg, status }),
    }
}

/// Whether a text is the greeting.
fn is_greeting(text: &[u8]) -> bool
    ensures { result ≡ seen.is_greeting text.now }
{
    text == GREETING.as_slice()
}

/// The role takes a head, or refuses it.
fn take_head<R: Role>(leg: Leg, role: &mut R, text: &[u8]) -> Result<HeadTaken, Stop>
    requires { length text.now ≤ greatest_head }
    ensures { (role.new, result) ≡ seen.take_head R.rules leg role.old text.now }
{
    let place = text.len() as u32;
    match role.head(leg, text) {
        Ok(taken) => Ok(taken),
        Err(why) => Err(stop_head(leg, place, why)),
    }
}

/// Why a row refuses what stands at this place.
fn cause_of(leg: Leg, place: u64, why: Refused) -> Cause
    ensures { result ≡ seen.cause_of leg place why }
{
    match why {
        Refused::Unexpected => Cause::Unexpected { leg, place },
        Refused::Cookie { expected, got } => Cause::CookieMismatch { leg, expected, got },
        Refused::Window(window) => Cause::WindowExceeded {
            leg,
            reached: window.reached,
            edge: window.edge,
        },
        Refused::OutOfRange { command, value } => Cause::OutOfRange {
            leg,
            command,
            value,
        },
        Refused::Full { leg } => Cause::ControlFull { leg },
    }
}

/// Why the frame at this place is no named packet.
fn cause_unread(leg: Leg, place: u64, fault: PacketFault) -> Cause
    ensures { result ≡ seen.cause_unread leg place fault }
{
    match fault {
        PacketFault::Rts(fault) => Cause::BadPacket { leg, place, fault },
        PacketFault::Sig(SigFault::Unknown) => Cause::Unexpected { leg, place },
        PacketFault::Sig(SigFault::OutOfRange { command, value }) => Cause::OutOfRange {
            leg,
            command,
            value,
        },
    }
}

fn one_more(count: Count) -> Count
    ensures { result ≡ seen.one_more count }
{
    match count {
        Count::Zero => Count::One,
        Count::One | Count::More => Count::More,
    }
}

/// Whether a pipe is towards the server.
fn is_upward(pipe: Option<Pipe>) -> bool
    ensures { result ≡ seen.is_upward pipe }
{
    matches!(pipe, Some(Pipe::CiU | Pipe::IsU | Pipe::CoU | Pipe::OsU))
}

/// Takes a Ping, which does nothing. Towards the server it comes behind the first packet.
fn take_ping(at: Heading) -> Result<Count, Cause>
    ensures { result ≡ seen.take_ping at }
{
    if at.count == Count::Zero && is_upward(at.pipe) {
        return Err(Cause::Unexpected {
            leg: at.leg,
            place: at.place,
        });
    }
    Ok(at.count)
}

/// A row takes what came, or refuses it.
fn close_row(at: Heading, next: Count, row: Result<(), Refused>) -> Result<Count, Cause>
    ensures { result ≡ seen.row_by at next row }
{
    match row {
        Ok(()) => Ok(next),
        Err(why) => Err(cause_of(at.leg, at.place, why)),
    }
}

/// Takes a packet.
fn take_packet<R: Role>(at: Heading, role: &mut R, frame: &[u8]) -> Result<Count, Cause>
    ensures { (role.new, result)
        ≡ seen.take_packet R.rules at role.old (packet_of frame.now at.pipe) }
{
    match read_packet(frame, at.pipe) {
        Ok(Named::Ping) => take_ping(at),
        Ok(packet) => {
            let row = role.packet(at.leg, at.count, packet);
            close_row(at, one_more(at.count), row)
        }
        Err(fault) => Err(cause_unread(at.leg, at.place, fault)),
    }
}

/// Takes a frame: a packet, or else an RPC PDU.
#[tactic(auto, unfolding(crate::specs::Hearing::take_frame))]
fn take_frame<R: Role>(at: Heading, role: &mut R, frame: &[u8]) -> Result<Count, Cause>
    requires { IsFrame frame.now }
    ensures { (role.new, result) ≡ seen.take_frame R.rules at role.old frame.now }
{
    if frame[PTYPE_AT] == RTS {
        return take_packet(at, role, frame);
    }
    let row = role.pdu(at.leg, at.count, frame);
    close_row(at, at.count, row)
}

/// The length of the frame that stands whole at the front of bytes, where one does.
fn front_frame(bytes: &[u8]) -> Option<usize>
    ensures within { IfSome result (λ len. len ≤ length bytes.now) }
    ensures frame { IfSome result (λ len. IsFrame (take len bytes.now)) }
{
    let header = bytes.first_chunk::<HEADER_LEN>()?;
    let Ok(header) = Header::read(header) else {
        return None;
    };
    let len = usize::from(header.frag);
    if len > bytes.len() {
        return None;
    }
    Some(len)
}

/// How many of so many bytes may come.
fn room(len: usize, body: Option<Body>) -> usize
    requires { IsWithin body }
    ensures count { result ≡ room len body }
    ensures most { result ≤ len }
{
    match body {
        Some(body) => len.min((u64::from(body.length) - body.came) as usize),
        None => len,
    }
}

/// Counts bytes of a body that came.
fn counted(len: usize, body: Option<Body>) -> Option<Body>
    requires within { IsWithin body }
    requires room { len ≤ room len body }
    ensures count { result ≡ counted len body }
    ensures within { IsWithin result }
{
    let body = body?;
    Some(Body {
        came: body.came + len as u64,
        length: body.length,
    })
}

/// The length that the head told, where there was one.
fn length_told(body: Option<Body>) -> u32
    ensures { result ≡ length_told body }
{
    match body {
        Some(body) => body.length,
        None => 0,
    }
}

impl NearEnd {
    /// Where a frame stands that begins at the place of what is held.
    fn heading(&self) -> Heading
        ensures { result ≡ seen.heading self.now self.now.intake.place }
    {
        Heading {
            leg: self.leg,
            pipe: self.pipe,
            place: self.place,
            count: self.count,
        }
    }

    /// A head or a greeting was taken: frames follow, or a body that is passed over.
    fn begin_body(&mut self, behind: Behind, length: Option<u32>)
        requires { self.old.intake.held ≡ [] }
        ensures { self.new ≡ seen.begun_body self.old (seen.stage_of behind) length }
    {
        self.stage = match behind {
            Behind::Frames => Stage::Frames,
            Behind::PassedOver => Stage::PassedOver,
        };
        self.framer = Framer::new();
        self.body = length.map(|length| Body { came: 0, length });
    }

    /// A head was taken, or refused: then the node stops.
    fn close_head(&mut self, taken: Result<HeadTaken, Stop>) -> Option<Stop>
        requires { self.old.intake.held ≡ [] }
        ensures { (self.new, result) ≡ after_head self.old taken }
    {
        match taken {
            Ok(taken) => {
                self.begin_body(taken.behind, Some(taken.length));
                None
            }
            Err(why) => Some(why),
        }
    }

    /// Adds bytes to a head, and takes it where it is whole.
    #[tactic(auto, unfolding(crate::specs::Hearing::take))]
    fn hear_head<'p, R: Role>(&mut self, role: &mut R, piece: &'p [u8]) -> (Option<Stop>, &'p [u8])
        requires stage { self.old.intake.stage ≡ stage.Head }
        requires some { 0 < length piece.now }
        ensures heard { (record { end = self.new; role = role.new; stop = result.0 }, result.1.now)
            ≡ seen.hear_next R.rules self.old role.old piece.now }
        ensures fewer { length result.1.now < length piece.now }
    {
        let Some(used) = self.head.add(piece) else {
            return (None, &[]);
        };
        let (_, behind) = piece.split_at(used);
        let taken = take_head(self.leg, role, self.head.bytes());
        let len = self.head.bytes().len() as u64;
        self.place = self.place.saturating_add(len);
        self.head.clear();
        (self.close_head(taken), behind)
    }

    /// The first byte behind a body is one too many.
    fn overrun<'p>(&mut self, beyond: &'p [u8]) -> (Option<Stop>, &'p [u8])
        requires { ReadsBody self.old.intake.stage }
        ensures after { (self.new, result.0, result.1.now) ≡ overran self.old beyond.now }
        ensures fewer { length result.1.now ≤ length beyond.now }
    {
        if beyond.is_empty() {
            return (None, beyond);
        }
        let length = length_told(self.body);
        let why = Cause::BodyOver {
            leg: self.leg,
            count: u64::from(length) + 1,
            length,
        };
        self.stage = Stage::Shut;
        let (_, behind) = beyond.split_at(1);
        (Some(stop(why)), behind)
    }

    /// A row took a frame, or refused it: then the node stops.
    fn close_frame(&mut self, taken: Result<Count, Cause>) -> Option<Stop>
        ensures { (self.new, result) ≡ after_row self.old taken }
    {
        match taken {
            Ok(count) => {
                self.count = count;
                None
            }
            Err(why) => Some(stop(why)),
        }
    }

    /// Takes a frame that stands whole at the front of the piece, where it stands.
    #[tactic(auto, unfolding(crate::specs::Hearing::take))]
    fn take_whole<'p, R: Role>(
        &mut self,
        role: &mut R,
        piece: &'p [u8],
        len: usize,
    ) -> (Option<Stop>, &'p [u8])
        requires stage { self.old.intake.stage ≡ stage.Frames }
        requires none { self.old.intake.held ≡ [] }
        requires room { len ≤ room (length piece.now) self.old.intake.body }
        requires fits { len ≤ length piece.now }
        requires frame { IsFrame (take len piece.now) }
        ensures heard { (record { end = self.new; role = role.new; stop = result.0 }, result.1.now)
            ≡ seen.hear_next R.rules self.old role.old piece.now }
        ensures fewer { length result.1.now < length piece.now }
    {
        let (frame, behind) = piece.split_at(len);
        let taken = take_frame(self.heading(), role, frame);
        self.place = self.place.saturating_add(len as u64);
        self.body = counted(len, self.body);
        (self.close_frame(taken), behind)
    }

    /// Adds bytes to a frame, and takes it where it is whole.
    #[tactic(auto, unfolding(crate::specs::Hearing::take))]
    fn feed<'p, R: Role>(&mut self, role: &mut R, piece: &'p [u8]) -> (Option<Stop>, &'p [u8])
        requires stage { self.old.intake.stage ≡ stage.Frames }
        requires some { 0 < length piece.now }
        ensures heard { (record { end = self.new; role = role.new; stop = result.0 }, result.1.now)
            ≡ seen.hear_next R.rules self.old role.old piece.now }
        ensures fewer { length result.1.now < length piece.now }
    {
        let at = self.heading();
        let (allowed, beyond) = piece.split_at(room(piece.len(), self.body));
        let held = self.framer.held();
        match self.framer.feed(allowed) {
            Feed::Need => {
                self.body = counted(allowed.len(), self.body);
                self.overrun(beyond)
            }
            Feed::Frame { used, len } => {
                let taken = take_frame(at, role, self.framer.frame());
                self.place = self.place.saturating_add(len as u64);
                self.body = counted(used, self.body);
                let (_, behind) = piece.split_at(used);
                (self.close_frame(taken), behind)
            }
            Feed::Fault { fault, .. } => {
                let used = HEADER_LEN - held;
                self.stage = Stage::Shut;
                self.body = counted(used, self.body);
                let (_, behind) = piece.split_at(used);
                let why = Cause::BadFrame {
                    leg: at.leg,
                    place: at.place,
                    fault,
                };
                (Some(stop(why)), behind)
            }
        }
    }

    /// Takes the next frame, or adds bytes to it.
    fn hear_frame<'p, R: Role>(&mut self, role: &mut R, piece: &'p [u8]) -> (Option<Stop>, &'p [u8])
        requires stage { self.old.intake.stage ≡ stage.Frames }
        requires some { 0 < length piece.now }
        ensures heard { (record { end = self.new; role = role.new; stop = result.0 }, result.1.now)
            ≡ seen.hear_next R.rules self.old role.old piece.now }
        ensures fewer { length result.1.now < length piece.now }
    {
        let (allowed, _) = piece.split_at(room(piece.len(), self.body));
        if self.framer.held() == 0 {
            if let Some(len) = front_frame(allowed) {
                return self.take_whole(role, piece, len);
            }
        }
        self.feed(role, piece)
    }

    /// A greeting was right, or it wasn't: then the node stops.
    fn close_greeting(&mut self, is_right: bool) -> Option<Stop>
        requires { self.old.intake.held ≡ [] }
        ensures { (self.new, result) ≡ after_greeting self.old is_right }
    {
        if is_right {
            self.begin_body(Behind::Frames, None);
            return None;
        }
        Some(stop(Cause::Unexpected {
            leg: self.leg,
            place: 0,
        }))
    }

    /// Adds bytes to a greeting, and takes it where it is whole. No role is asked for that.
    #[tactic(auto, unfolding(crate::specs::Hearing::take))]
    fn hear_greeting<'p, R: Role>(&mut self, _role: &R, piece: &'p [u8]) -> (Option<Stop>, &'p [u8])
        requires stage { self.old.intake.stage ≡ stage.Greeting }
        requires some { 0 < length piece.now }
        ensures heard { (record { end = self.new; role = _role.now; stop = result.0 }, result.1.now)
            ≡ seen.hear_next R.rules self.old _role.now piece.now }
        ensures fewer { length result.1.now < length piece.now }
    {
        let Some(used) = self.greeting.add(piece) else {
            return (None, &[]);
        };
        let (_, behind) = piece.split_at(used);
        let right = is_greeting(self.greeting.bytes());
        let len = self.greeting.bytes().len() as u64;
        self.place = self.place.saturating_add(len);
        self.greeting.clear();
        (self.close_greeting(right), behind)
    }

    /// Counts the bytes of a body that nobody reads.
    fn pass_over<'p>(&mut self, piece: &'p [u8]) -> (Option<Stop>, &'p [u8])
        requires stage { self.old.intake.stage ≡ stage.PassedOver }
        requires some { 0 < length piece.now }
        ensures passed { (n : ℕ) → n ≡ room (length piece.now) self.old.intake.body
            → (self.new, result.0, result.1.now) ≡ overran
            (seen.with_intake self.old
            (record self.old.intake { body = counted n self.old.intake.body }))
            (drop n piece.now) }
        ensures within { IsWithin self.old.intake.body }
        ensures fewer { length result.1.now < length piece.now }
    {
        let (allowed, beyond) = piece.split_at(room(piece.len(), self.body));
        self.body = counted(allowed.len(), self.body);
        self.overrun(beyond)
    }

    /// Takes what bytes from the front of the piece first make whole, and answers what is left of
    /// the piece.
    fn hear_next<'p, R: Role>(&mut self, role: &mut R, piece: &'p [u8]) -> (Option<Stop>, &'p [u8])
        requires some { 0 < length piece.now }
        ensures heard { (record { end = self.new; role = role.new; stop = result.0 }, result.1.now)
            ≡ seen.hear_next R.rules self.old role.old piece.now }
        ensures fewer { length result.1.now < length piece.now }
    {
        match self.stage {
            Stage::Head => self.hear_head(role, piece),
            Stage::Greeting => self.hear_greeting(role, piece),
            Stage::Frames => self.hear_frame(role, piece),
            Stage::PassedOver => self.pass_over(piece),
            Stage::Shut => (None, &[]),
        }
    }

    /// Bytes come just now.
    fn touch(&mut self, now: u64)
        ensures { self.new ≡ seen.touched self.old now }
    {
        self.since = now;
    }

    /// The bytes of a piece come on the leg, up to what stops the node.
    pub(crate) fn hear<R: Role>(&mut self, role: &mut R, now: u64, piece: &[u8]) -> Option<Stop>
        ensures { record { end = self.new; role = role.new; stop = result }
            ≡ seen.hear R.rules now (seen.goes self.old role.old) piece.now }
    {
        let mut left = piece;
        'items: loop {
            if left.is_empty() {
                return None;
            }
            if self.is_over(role) {
                return None;
            }
            self.touch(now);
            let (stop, behind) = self.hear_next(role, left);
            left = behind;
            if let Some(stop) = stop {
                return Some(stop);
            }
        }
    }
}
