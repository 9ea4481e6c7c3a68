//! The words for packets and for pipes.

ghost use Rattle.std.specs.Prelude.{◌≡◌, string_bytes};
ghost use Rattle.rh_text.specs.Writing.{Writes};
ghost use Rattle.rh_name.specs.Words.{name_word, pipe_word};

use rh_sig::{Name, Pipe};
use std::alloc::AllocError;

/// What a packet is called (MS-RPCH 2.2.4; replacement and a clean end are (profile)).
pub fn name_word(name: Name) -> &'static str
    ensures { result.now ≡ name_word name }
{
    match name {
        Name::ConnA1 => "CONN/A1",
        Name::ConnA2 => "CONN/A2",
        Name::ConnA3 => "CONN/A3",
        Name::ConnB1 => "CONN/B1",
        Name::ConnB2 => "CONN/B2",
        Name::ConnB3 => "CONN/B3",
        Name::ConnC1 => "CONN/C1",
        Name::ConnC2 => "CONN/C2",
        Name::InR1A1 => "IN_R1/A1",
        Name::InR1A2 => "IN_R1/A2",
        Name::InR1A3 => "IN_R1/A3",
        Name::InR1A4 => "IN_R1/A4",
        Name::InR1A5 => "IN_R1/A5",
        Name::InR1A6 => "IN_R1/A6",
        Name::InR1B1 => "IN_R1/B1",
        Name::InR1B2 => "IN_R1/B2",
        Name::InR2A2 => "IN_R2/A2",
        Name::InR2A3 => "IN_R2/A3",
        Name::InR2A4 => "IN_R2/A4",
        Name::OutR1A1 => "OUT_R1/A1",
        Name::OutR1A2 => "OUT_R1/A2",
        Name::OutR1A3 => "OUT_R1/A3",
        Name::OutR2C1 => "OUT_R2/C1",
        Name::OutR1A4 => "OUT_R1/A4",
        Name::OutR1A5 => "OUT_R1/A5",
        Name::OutR1A6 => "OUT_R1/A6",
        Name::OutR1A7 => "OUT_R1/A7",
        Name::OutR1A8 => "OUT_R1/A8",
        Name::OutR1A9 => "OUT_R1/A9",
        Name::OutR1A10 => "OUT_R1/A10",
        Name::EndA1 => "END/A1",
        Name::EndA2 => "END/A2",
        Name::EndB1 => "END/B1",
        Name::EndB2 => "END/B2",
        Name::Ack => "FlowControlAck",
        Name::AckTo => "FlowControlAckWithDestination",
        Name::KeepAlive => "Keep-Alive",
        Name::PingTraffic => "PingTrafficSentNotify",
        Name::Ping => "Ping",
    }
}

/// The word for a pipe: the kind of its leg and the direction.
pub fn pipe_word(pipe: Pipe) -> &'static str
    ensures { result.now ≡ pipe_word pipe }
{
    match pipe {
        Pipe::CiU => "ciu",
        Pipe::IsU => "isu",
        Pipe::IsD => "isd",
        Pipe::CoU => "cou",
        Pipe::CoD => "cod",
        Pipe::OsU => "osu",
        Pipe::OsD => "osd",
    }
}

/// Appends a text as it is.
pub(crate) fn push(text: &'static str, out: &mut String) -> Result<(), AllocError>
    ensures { Writes text.now result (string_bytes out.old) (string_bytes out.new) }
{
    out.push_str(text)
}
