//! What order sees in frames. This function does nothing: its contract is the law.

ghost use Rattle.std.specs.Prelude.{◌≡◌, List, Some, map};
ghost use Rattle.std.specs.List.{AllByRecursion};
ghost use Rattle.rh_sig.specs.declared.name.Pipe.{Pipe};
ghost use Rattle.rh_shell.specs.Rules.{Message, spell};
ghost use Rattle.rh_audit.specs.Packets.{met};
ghost use Rattle.rh_audit.specs.Streams.{is_marked, pdus};
ghost use Rattle.law_order.specs.Items as items;
ghost use Rattle.law_order.specs.Items.{Item, has_handover};
ghost use Rattle.law_order.specs.Logs.{seen};
ghost use Rattle.law_moves.specs.Legible.Legible.{MayGoOn};
ghost use Rattle.law_moves.specs.ReadBack.Reading.{AreNoTexts};
ghost use Rattle.law_audit.specs.Carrying.Items.{Fits};

use crate::laws_of_streams::what_is_put_is_seen;

/// In the frames of messages that may go on a pipe an audit sees the RPC PDUs, and whether the
/// handover mark is there, as order sees them in the messages.
pub fn frames_are_items()
    ensures pdus { (pipe : Pipe) (view : Message → List Item) (messages : List Message)
        → Fits pipe view → AreNoTexts messages → AllByRecursion (MayGoOn (Some pipe)) messages
        → pdus pipe (map spell messages) ≡ items.pdus (seen view messages) }
    ensures mark { (pipe : Pipe) (view : Message → List Item) (messages : List Message)
        → Fits pipe view → AreNoTexts messages → AllByRecursion (MayGoOn (Some pipe)) messages
        → is_marked (map (met pipe) (map spell messages)) ≡ has_handover (seen view messages) }
{
    what_is_put_is_seen();
}
