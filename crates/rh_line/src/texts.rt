//! The texts of legs and causes.

ghost use Rattle.std.specs.Prelude.{◌≡◌, ◌++◌, string_bytes};
ghost use Rattle.std.specs.Fmt.{decimal};
ghost use Rattle.rh_pdu.specs.Texts.{head_fault_text};
ghost use Rattle.rh_sig.specs.Cookies.{text_of_cookie};
ghost use Rattle.rh_text.specs.Writing.{Writes};
ghost use Rattle.rh_line.specs.Texts.{leg_text, letters_of, cause_leg, cause_name, cause_number, cause_text, more_fields, number_word, rts_fault_words, word};

use crate::cause::Cause;
use crate::leg::{Leg, LegKind};
use rh_pdu::{HeadFault, write_head_fault};
use rh_rts::{Cookie, RtsFault};
use rh_sig::COOKIE_TEXT_LEN;
use rh_text::{Part, write_parts};
use std::alloc::AllocError;
use uuid::Uuid;

impl LegKind {
    /// The letters that name a leg of this kind, before its number.
    pub fn letters(&self) -> &'static str
        ensures { result.now ≡ letters_of self.now }
    {
        match self {
            LegKind::ClientOut => "co",
            LegKind::OutServer => "os",
            LegKind::ClientIn => "ci",
            LegKind::InServer => "is",
        }
    }
}

impl Cause {
    /// The number that tells the cause: 1 to 13.
    pub fn number(&self) -> u8
        ensures { result ≡ cause_number self.now }
    {
        match self {
            Cause::LegBroken { .. } => 1,
            Cause::LegEnded { .. } => 2,
            Cause::BadFrame { .. } => 3,
            Cause::BadPacket { .. } => 4,
            Cause::Unexpected { .. } => 5,
            Cause::CookieMismatch { .. } => 6,
            Cause::WindowExceeded { .. } => 7,
            Cause::OutOfRange { .. } => 8,
            Cause::HttpRefused { .. } => 9,
            Cause::BadHead { .. } => 10,
            Cause::Silent { .. } => 11,
            Cause::ControlFull { .. } => 12,
            Cause::BodyOver { .. } => 13,
        }
    }

    /// The name of the cause.
    pub fn name(&self) -> &'static str
        ensures { result.now ≡ cause_name self.now }
    {
        match self {
            Cause::LegBroken { .. } => "LegBroken",
            Cause::LegEnded { .. } => "LegEnded",
            Cause::BadFrame { .. } => "BadFrame",
            Cause::BadPacket { .. } => "BadPacket",
            Cause::Unexpected { .. } => "Unexpected",
            Cause::CookieMismatch { .. } => "CookieMismatch",
            Cause::WindowExceeded { .. } => "WindowExceeded",
            Cause::OutOfRange { .. } => "OutOfRange",
            Cause::HttpRefused { .. } => "HttpRefused",
            Cause::BadHead { .. } => "BadHead",
            Cause::Silent { .. } => "Silent",
            Cause::ControlFull { .. } => "ControlFull",
            Cause::BodyOver { .. } => "BodyOver",
        }
    }

    /// The leg on which it was found.
    pub fn leg(&self) -> Leg
        ensures { result ≡ cause_leg self.now }
    {
        match self {
            Cause::LegBroken { leg }
            | Cause::LegEnded { leg, .. }
            | Cause::BadFrame { leg, .. }
            | Cause::BadPacket { leg, .. }
            | Cause::Unexpected { leg, .. }
            | Cause::CookieMismatch { leg, .. }
            | Cause::WindowExceeded { leg, .. }
            | Cause::OutOfRange { leg, .. }
            | Cause::HttpRefused { leg, .. }
            | Cause::BadHead { leg, .. }
            | Cause::Silent { leg, .. }
            | Cause::ControlFull { leg }
            | Cause::BodyOver { leg, .. } => *leg,
        }
    }
}

/// Appends the name of a leg, as `co1`.
///
/// Fails where there is no memory for it; a front of the text may stand in `out` then.
pub fn write_leg(leg: Leg, out: &mut String) -> Result<(), AllocError>
    ensures { Writes (leg_text leg) result (string_bytes out.old) (string_bytes out.new) }
{
    let number = Part::Number(u64::from(leg.number));
    write_parts(&[Part::Text(leg.kind.letters()), number], out)
}

/// Appends the number, the name and the leg of a cause.
fn write_start(cause: &Cause, out: &mut String) -> Result<(), AllocError>
    ensures { Writes
        (decimal (cause_number cause.now) ++ word (cause_name cause.now)
        ++ word (leg_text (cause_leg cause.now)))
        result (string_bytes out.old) (string_bytes out.new) }
{
    let space = Part::Text(" ");
    let leg = cause.leg();
    write_parts(
        &[
            Part::Number(u64::from(cause.number())),
            space,
            Part::Text(cause.name()),
            space,
            Part::Text(leg.kind.letters()),
            Part::Number(u64::from(leg.number)),
        ],
        out,
    )
}

/// Appends a number, with a space before it.
fn write_number(number: u64, out: &mut String) -> Result<(), AllocError>
    ensures { Writes (number_word number) result (string_bytes out.old) (string_bytes out.new) }
{
    write_parts(&[Part::Text(" "), Part::Number(number)], out)
}

/// Appends two numbers, with a space before each.
fn write_numbers(one: u64, two: u64, out: &mut String) -> Result<(), AllocError>
    ensures { Writes (number_word one ++ number_word two) result
        (string_bytes out.old) (string_bytes out.new) }
{
    let space = Part::Text(" ");
    write_parts(&[space, Part::Number(one), space, Part::Number(two)], out)
}

/// Appends a header's fault, with a space before it.
fn write_frame_fault(fault: HeadFault, out: &mut String) -> Result<(), AllocError>
    ensures { Writes (word (head_fault_text fault)) result
        (string_bytes out.old) (string_bytes out.new) }
{
    out.push_str(" ")?;
    write_head_fault(fault, out)
}

/// Appends the place and the fault of a header, with a space before each.
fn write_bad_frame(place: u64, fault: HeadFault, out: &mut String) -> Result<(), AllocError>
    ensures { Writes (number_word place ++ word (head_fault_text fault)) result
        (string_bytes out.old) (string_bytes out.new) }
{
    write_number(place, out)?;
    write_frame_fault(fault, out)
}

/// Appends the place of a packet, and the kind of its fault with its place, with a space before
/// each.
fn write_bad_packet(place: u64, fault: RtsFault, out: &mut String) -> Result<(), AllocError>
    ensures { Writes
        (number_word place ++ rts_fault_words fault)
        result (string_bytes out.old) (string_bytes out.new) }
{
    let space = Part::Text(" ");
    let (place, behind) = (Part::Number(place), Part::Number(fault.place as u64));
    let kind = Part::Text(fault.kind.name());
    write_parts(&[space, place, space, kind, space, behind], out)
}

/// Appends a place and a word, with a space before each.
fn write_bad_head(place: u32, name: &str, out: &mut String) -> Result<(), AllocError>
    ensures { Writes (number_word place ++ word name.now) result
        (string_bytes out.old) (string_bytes out.new) }
{
    let space = Part::Text(" ");
    let place = Part::Number(u64::from(place));
    write_parts(&[space, place, space, Part::Text(name)], out)
}

/// Appends the text of a cookie, with a space before it.
#[tactic(auto, using(rh_sig::proofs::Texts::by_places))]
fn write_cookie(cookie: &Cookie, out: &mut String) -> Result<(), AllocError>
    ensures { Writes (word (text_of_cookie cookie.now.0)) result
        (string_bytes out.old) (string_bytes out.new) }
{
    let mut buffer = [0; COOKIE_TEXT_LEN];
    let text = Uuid::from_bytes(cookie.0)
        .hyphenated()
        .encode_lower(&mut buffer);
    write_parts(&[Part::Text(" "), Part::Text(text)], out)
}

/// Appends the texts of two cookies, with a space before each.
fn write_cookies(one: &Cookie, two: &Cookie, out: &mut String) -> Result<(), AllocError>
    ensures { Writes (word (text_of_cookie one.now.0) ++ word (text_of_cookie two.now.0)) result
        (string_bytes out.old) (string_bytes out.new) }
{
    write_cookie(one, out)?;
    write_cookie(two, out)
}

/// Appends the fields behind the leg, with a space before each.
fn write_more(cause: &Cause, out: &mut String) -> Result<(), AllocError>
    ensures { Writes (more_fields cause.now) result
        (string_bytes out.old) (string_bytes out.new) }
{
    match *cause {
        Cause::LegBroken { .. } | Cause::ControlFull { .. } => Ok(()),
        Cause::LegEnded { partial, .. } => write_number(u64::from(partial), out),
        Cause::BadFrame { place, fault, .. } => write_bad_frame(place, fault, out),
        Cause::BadPacket { place, fault, .. } => write_bad_packet(place, fault, out),
        Cause::Unexpected { place, .. } => write_number(place, out),
        Cause::CookieMismatch { expected, got, .. } => write_cookies(&expected, &got, out),
        Cause::WindowExceeded { reached, edge, .. } => write_numbers(reached, edge, out),
        Cause::OutOfRange { command, value, .. } => {
            write_numbers(u64::from(command), u64::from(value), out)
        }
        Cause::HttpRefused { status, .. } => write_number(u64::from(status), out),
        Cause::BadHead { place, fault, .. } => write_bad_head(place, fault.name(), out),
        Cause::Silent { since, now, .. } => write_numbers(since, now, out),
        Cause::BodyOver { count, length, .. } => write_numbers(count, u64::from(length), out),
    }
}

/// Appends the text of a cause: its number, its name and its fields, with one space between two of
/// them. Legs stand by name, cookies by their text, numbers in decimal, and a fault by its name and
/// its numbers.
///
/// Fails where there is no memory for it; a front of the text may stand in `out` then.
pub fn write_cause(cause: &Cause, out: &mut String) -> Result<(), AllocError>
    ensures { Writes (cause_text cause.now) result (string_bytes out.old) (string_bytes out.new) }
{
    write_start(cause, out)?;
    write_more(cause, out)
}
