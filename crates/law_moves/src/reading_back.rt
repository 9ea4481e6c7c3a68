//! Which messages read back. A role keeps that what it puts on a leg is read there as what it put,
//! as long as the packets that came to it have their sizes and ranges; and packets that were read
//! from bytes have these. Its functions do nothing: their contracts are the laws.

ghost use Rattle.std.specs.Prelude.{List};
ghost use Rattle.std.specs.declared.option.Option.{Option};
ghost use Rattle.rh_sig.specs.declared.name.Pipe.{Pipe};
ghost use Rattle.rh_sig.specs.declared.named.Named.{Named};
ghost use Rattle.rh_line.specs.declared.leg.Leg.{Leg};
ghost use Rattle.rh_shell.specs.Rules.{Message};
ghost use Rattle.law_moves.specs.Moves.{OnLeg};
ghost use Rattle.law_moves.specs.Legible.Legible.{AllMayGo, AllReadBack, IsFine, MayGoOn, ReadsBack};
ghost use Rattle.law_moves.specs.Legible.Reading.{WasRead};

use rh_rts::packets_are_read;
use rh_sig::packets_are_named;

/// A PDU, and a packet whose values are fine on a pipe that carries it, are read as they were put;
/// a Ping is passed over. So is each message of a log.
pub fn what_may_go_reads_back()
    ensures message { (pipe : Option Pipe) (message : Message) → MayGoOn pipe message
        → ReadsBack pipe message }
    ensures log { (pipe : Leg → Option Pipe) (log : List OnLeg) → AllMayGo pipe log
        → AllReadBack pipe log }
{
    packets_are_named();
}

/// A packet that was read has its sizes and ranges, and its destination is a role.
pub fn what_was_read_is_fine()
    ensures { (named : Named) → WasRead named → IsFine named }
{
    packets_are_read();
    packets_are_named();
}
