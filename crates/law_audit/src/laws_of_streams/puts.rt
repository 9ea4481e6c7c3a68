//! What is put on a pipe. These functions do nothing: their contracts are the laws.

ghost use Rattle.std.specs.Prelude.{◌≡◌, ℕ, List};
ghost use mathlib.Core.List.{IsPrefix};
ghost use Rattle.rh_pdu.specs.Frames.{IsPdu};
ghost use Rattle.rh_sig.specs.declared.name.Pipe.{Pipe};
ghost use Rattle.rh_sig.specs.declared.named.Named.{Named};
ghost use Rattle.rh_shell.specs.Rules.{Message, Packet, spell};
ghost use Rattle.rh_audit.specs.declared.packet.Met.TheVariants as kinds;
ghost use Rattle.rh_audit.specs.Packets.{met};
ghost use Rattle.law_moves.specs.Carrying.{spelled};
ghost use Rattle.law_moves.specs.Legible.Legible.{MayGo};
ghost use Rattle.law_audit.specs.Streams.Put.{IsStreamOf, IsStreamed, behind_text, packet_of};

use law_moves::what_may_go_reads_back;
use rh_sig::packets_are_named;

/// Bytes that are cut anywhere from those of a fine text and messages that may go on the pipe are a
/// stream that is not broken, of the first of these messages.
pub fn what_is_put_is_a_stream()
    ensures { (pipe : Pipe) (put : List Message) (bytes : List ℕ) → IsStreamed pipe put
        → IsPrefix bytes (spelled put) → IsStreamOf pipe (behind_text put) bytes }
{
    packets_are_named();
    what_may_go_reads_back();
}

/// The frame of an RPC PDU is seen as one, and that of a packet with its name and its last two
/// cookies.
pub fn what_is_put_is_seen()
    ensures pdu { (pipe : Pipe) (pdu : List ℕ) → IsPdu pdu → met pipe pdu ≡ kinds.Pdu }
    ensures packet { (pipe : Pipe) (named : Named) → MayGo pipe named
        → met pipe (spell (Packet named)) ≡ kinds.Packet (packet_of named) }
{
    packets_are_named();
}
