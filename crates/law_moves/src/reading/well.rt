//! The laws of bytes that read well. These functions do nothing: their contracts are the laws.

ghost use Rattle.std.specs.Prelude.{◌≡◌, ◌++◌, List, ℕ, Ok, Some};
ghost use Rattle.std.specs.List.{AllByRecursion};
ghost use Rattle.std.specs.declared.option.Option.{Option};
ghost use mathlib.Core.List.{IsPrefix};
ghost use Rattle.rh_pdu.specs.Frames.{IsFrame};
ghost use Rattle.rh_sig.specs.declared.name.Pipe.{Pipe};
ghost use Rattle.rh_sig.specs.declared.named.Named.{Named};
ghost use Rattle.rh_shell.specs.declared.stage.Stage.TheVariants as stage;
ghost use Rattle.law_moves.specs.Carrying.{spelled};
ghost use Rattle.rh_shell.specs.Hearing.{greeting};
ghost use Rattle.rh_shell.specs.Intakes.{is_whole_head};
ghost use Rattle.rh_shell.specs.NearEnds.{first_stage};
ghost use Rattle.rh_shell.specs.Readings.{packet_of};
ghost use Rattle.rh_shell.specs.Rules.{Message, Packet, spell};
ghost use Rattle.law_moves.specs.Legible.Legible.{MayGo, MayGoOn};
ghost use Rattle.law_moves.specs.ReadBack.Reading.{Begins, IsWholeText, begin, reading_after};
ghost use Rattle.law_moves.specs.ReadBack.Well.{Answers, AreTaken, FrameIsWell, IsWellText, ReadsWell};
ghost use Rattle.law_moves.specs.ReadBack.Well.{ReadsWellFrom, TextIsWell};

use crate::reading::texts::texts_are_whole;
use crate::reading_back::what_may_go_reads_back;
use rh_sig::packets_are_named;

/// A packet that may go on a pipe is read there as itself.
pub fn a_packet_that_may_go_is_read()
    ensures { (pipe : Pipe) (named : Named) → MayGo pipe named
        → packet_of (spell (Packet named)) (Some pipe) ≡ Ok named }
{
    packets_are_named();
}

/// Of what was put on a leg every front reads well, where that begins as the leg's end reads it,
/// each message may go there, and the texts read well.
pub fn what_was_put_reads_well()
    ensures { (well : Answers) (pipe : Option Pipe) (put : List Message) (drawn heard : List ℕ)
        → AreTaken well → Begins pipe put → AllByRecursion (MayGoOn pipe) put
        → AllByRecursion (IsWellText well pipe) put → IsPrefix drawn (spelled put)
        → IsPrefix heard drawn → ReadsWell well pipe heard }
{
    what_may_go_reads_back();
    a_packet_that_may_go_is_read();
}

/// A head reads well where one comes first, also with a frame behind it that does; and so does the
/// greeting where that comes first.
pub fn texts_read_well()
    ensures head { (well : Answers) (pipe : Option Pipe) (text : List ℕ)
        → first_stage pipe ≡ stage.Head → IsWholeText is_whole_head text
        → TextIsWell well pipe text }
    ensures frame { (well : Answers) (pipe : Option Pipe) (text frame : List ℕ)
        → first_stage pipe ≡ stage.Head → IsWholeText is_whole_head text → IsFrame frame
        → FrameIsWell well pipe frame → TextIsWell well pipe (text ++ frame) }
    ensures greeting { (well : Answers) (pipe : Option Pipe) → first_stage pipe ≡ stage.Greeting
        → TextIsWell well pipe greeting }
{
    texts_are_whole();
}

/// Where bytes read well, so does each piece behind those before it.
pub fn a_piece_reads_well()
    ensures { (well : Answers) (pipe : Option Pipe) (heard piece : List ℕ)
        → ReadsWell well pipe (heard ++ piece)
        → ReadsWellFrom well pipe (reading_after pipe (begin pipe) heard) piece }
{}
