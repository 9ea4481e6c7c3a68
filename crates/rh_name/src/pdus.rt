//! PDUs that are no RTS packets, as text (C706 12.6.3.1).

ghost use Rattle.std.specs.Prelude.{◌≡◌, ◌<◌, ◌++◌, string_bytes, slice_get, MatchOption, None, Some};
ghost use Rattle.rh_text.specs.Writing.{Writes};
ghost use Rattle.rh_name.specs.Pdus as seen;

use rh_pdu::header::HEADER_LEN;
use rh_pdu::{Header, check, write_pdu_fault};
use rh_show::read_header;
use rh_text::{Part, write_parts};
use std::alloc::AllocError;

/// The word for a kind of PDU; `None` where there is none for it.
fn kind_word(ptype: u8) -> Option<&'static str>
    ensures { MatchOption result (slice_get seen.kinds ptype ≡ None)
        (λ word. slice_get seen.kinds ptype ≡ Some word.now) }
{
    match ptype {
        0 => Some("request"),
        1 => Some("ping"),
        2 => Some("response"),
        3 => Some("fault"),
        4 => Some("working"),
        5 => Some("nocall"),
        6 => Some("reject"),
        7 => Some("ack"),
        8 => Some("cl_cancel"),
        9 => Some("fack"),
        10 => Some("cancel_ack"),
        11 => Some("bind"),
        12 => Some("bind_ack"),
        13 => Some("bind_nak"),
        14 => Some("alter_context"),
        15 => Some("alter_context_resp"),
        16 => Some("auth3"),
        17 => Some("shutdown"),
        18 => Some("co_cancel"),
        19 => Some("orphaned"),
        _ => None,
    }
}

/// Appends the word for a kind of PDU, by its PTYPE (C706 12.1), or its number.
#[tactic(auto, unfolding(crate::specs::Pdus::kind_by))]
pub fn write_kind(ptype: u8, out: &mut String) -> Result<(), AllocError>
    ensures { Writes (seen.kind_by ptype (slice_get seen.kinds ptype)) result
        (string_bytes out.old) (string_bytes out.new) }
{
    match kind_word(ptype) {
        Some(word) => out.push_str(word),
        None => write_parts(&[Part::Text("ptype "), Part::Number(u64::from(ptype))], out),
    }
}

/// The word for a bit of the flags, where it is set.
#[tactic(auto, unfolding(crate::specs::Pdus::flag_word))]
fn flag_word(flags: u8, bit: u8, word: &'static str) -> &'static str
    requires { 0 < bit }
    ensures { result.now ≡ seen.flag_word flags bit word.now }
{
    if flags / bit % 2 == 1 { word } else { "" }
}

/// Appends the names of the flags that are set.
#[tactic(auto, unfolding(crate::specs::Pdus::set_flags))]
fn write_set_flags(flags: u8, out: &mut String) -> Result<(), AllocError>
    ensures { Writes (seen.set_flags flags) result (string_bytes out.old) (string_bytes out.new) }
{
    write_parts(
        &[
            Part::Text(flag_word(flags, 1, " first_frag")),
            Part::Text(flag_word(flags, 2, " last_frag")),
            Part::Text(flag_word(flags, 4, " pending_cancel")),
            Part::Text(flag_word(flags, 8, " reserved_1")),
            Part::Text(flag_word(flags, 16, " conc_mpx")),
            Part::Text(flag_word(flags, 32, " did_not_execute")),
            Part::Text(flag_word(flags, 64, " maybe")),
            Part::Text(flag_word(flags, 128, " object_uuid")),
        ],
        out,
    )
}

/// Appends the call id, both lengths and the flags.
#[tactic(auto, unfolding(crate::specs::Pdus::numbers_text))]
fn write_numbers(header: &Header, out: &mut String) -> Result<(), AllocError>
    ensures { Writes (seen.numbers_text header.now) result
        (string_bytes out.old) (string_bytes out.new) }
{
    let call = Part::Number(u64::from(header.call));
    let frag = Part::Number(u64::from(header.frag));
    let auth = Part::Number(u64::from(header.auth));
    let flags = [header.flags];
    write_parts(
        &[
            Part::Text(" call "),
            call,
            Part::Text(" length "),
            frag,
            Part::Text(" auth "),
            auth,
            Part::Text(" flags "),
            Part::Hex(&flags),
        ],
        out,
    )
}

/// Appends the call id, both lengths and the flags, and the names of those that are set.
fn write_header(header: &Header, out: &mut String) -> Result<(), AllocError>
    ensures { Writes (seen.numbers_text header.now ++ seen.set_flags header.now.flags) result
        (string_bytes out.old) (string_bytes out.new) }
{
    write_numbers(header, out)?;
    write_set_flags(header.flags, out)
}

/// Appends what a PDU is that has no fault.
fn write_checked(header: &Header, out: &mut String) -> Result<(), AllocError>
    ensures { Writes (seen.checked_text header.now None) result
        (string_bytes out.old) (string_bytes out.new) }
{
    write_kind(header.ptype, out)?;
    write_header(header, out)
}

/// Appends what the PDU is, or what is wrong with it first.
pub fn write_pdu(bytes: &[u8], out: &mut String) -> Result<(), AllocError>
    ensures { Writes (seen.pdu_text bytes.now) result (string_bytes out.old) (string_bytes out.new) }
{
    match check(bytes) {
        Ok(()) => write_checked(&read_header(bytes), out),
        Err(fault) => {
            out.push_str("bad ")?;
            write_pdu_fault(fault, out)
        }
    }
}
