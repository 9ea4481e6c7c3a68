//! That a packet has one name and one value, and which it is.

ghost use Rattle.std.specs.Prelude.{◌≡◌, ◌≤◌, ◌++◌, ℕ, List, length, Ok, Err, MatchResult};
ghost use Rattle.rh_rts.specs.Commands.{HaveSizes};
ghost use Rattle.rh_rts.specs.Packets.{Parts, IsPacket};
ghost use Rattle.rh_rts.specs.Reading.{read_packet};
ghost use Rattle.rh_rts.specs.Refusals.{frag_of};
ghost use Rattle.rh_sig.specs.declared.fault.SigFault.{SigFault};
ghost use Rattle.rh_sig.specs.declared.lengths.TheConstants.{GREATEST_NAMED_LEN};
ghost use Rattle.rh_sig.specs.declared.name.Name.{Name};
ghost use Rattle.rh_sig.specs.declared.name.Pipe.{Pipe};
ghost use Rattle.rh_sig.specs.declared.named.Named.{Named};
ghost use Rattle.rh_sig.specs.Names.{row_of, IsCarried, IsNamed};
ghost use Rattle.rh_sig.specs.Naming.{first_out, unless_out, named_of, named_bytes};
ghost use Rattle.rh_sig.specs.Values.{name_of_named, commands_of, parts_of, ReadsAs};
ghost use Rattle.rh_sig.specs.Values.{AreInRange, IsRefused, MayBeWritten};

/// No two rows of one pipe have the same flags and types; so a packet has at most one name on a
/// pipe, and reads as at most one named packet. This function does nothing, and its contract is
/// these laws.
pub fn one_name()
    ensures row { (pipe : Pipe) (a b : Name) → IsCarried a pipe → IsCarried b pipe
        → (row_of a).flags ≡ (row_of b).flags → (row_of a).types ≡ (row_of b).types → a ≡ b }
    ensures name { (p : Parts) (pipe : Pipe) (a b : Name)
        → IsNamed p pipe a → IsNamed p pipe b → a ≡ b }
    ensures value { (a b : Named) → name_of_named a ≡ name_of_named b
        → commands_of a ≡ commands_of b → a ≡ b }
    ensures reading { (p : Parts) (pipe : Pipe) (a b : Named)
        → ReadsAs p pipe a → ReadsAs p pipe b → a ≡ b }
{}

/// `named_of` computes what `read_named` answers, and agrees with what a packet reads as and with
/// why it is refused. What `write_named` wrote reads back as that packet on each pipe of its row,
/// unless a value is out of range, which is then told; its length stands in its header, whatever
/// stands behind it, and is at most 140 bytes. This function does nothing, and its contract is
/// these laws.
pub fn packets_are_named()
    ensures agrees { (p : Parts) (pipe : Pipe) → MatchResult (named_of p pipe)
        (λ named. ReadsAs p pipe named × AreInRange (commands_of named))
        (λ fault. IsRefused p pipe fault) }
    ensures read { (p : Parts) (pipe : Pipe) (named : Named) → ReadsAs p pipe named
        → AreInRange (commands_of named) → named_of p pipe ≡ Ok named }
    ensures refused { (p : Parts) (pipe : Pipe) (fault : SigFault) → IsRefused p pipe fault
        → named_of p pipe ≡ Err fault }
    ensures sound { (named : Named) → MayBeWritten named → HaveSizes (commands_of named)
        → IsPacket (parts_of named) }
    ensures back { (named : Named) → IsPacket (parts_of named)
        → read_packet (named_bytes named) ≡ Ok (parts_of named) }
    ensures told { (named : Named) (pipe : Pipe) → IsCarried (name_of_named named) pipe
        → named_of (parts_of named) pipe ≡ unless_out (first_out (commands_of named)) named }
    ensures fine { (named : Named) (pipe : Pipe) → IsCarried (name_of_named named) pipe
        → AreInRange (commands_of named) → named_of (parts_of named) pipe ≡ Ok named }
    ensures length { (named : Named) (rest : List ℕ) → IsPacket (parts_of named)
        → frag_of (named_bytes named ++ rest) ≡ length (named_bytes named) }
    ensures short { (named : Named) → IsPacket (parts_of named)
        → length (named_bytes named) ≤ GREATEST_NAMED_LEN }
{}
