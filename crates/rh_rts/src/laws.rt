//! That bytes are read in one way.

ghost use Rattle.std.specs.Prelude.{◌≡◌, ◌++◌, ℕ, List, [], length, Ok};
ghost use Rattle.std.specs.declared.result.Result.{Result};
ghost use Rattle.rh_rts.specs.Commands.{IsBytes};
ghost use Rattle.rh_rts.specs.Judging.{Judged};
ghost use Rattle.rh_rts.specs.Packets.{Parts, IsPacket, packet_bytes};
ghost use Rattle.rh_rts.specs.Reading.{read_packet};
ghost use Rattle.rh_rts.specs.Refusals.{FirstFault, frag_of};
ghost use Rattle.rh_rts.specs.declared.fault.RtsFault.{RtsFault};

/// Bytes are of one packet, or have one first fault, and never both; and no packet's bytes go on to
/// be those of another. This function does nothing, and its contract is these laws.
pub fn one_packet()
    ensures verdict { (bytes : List ℕ) → IsBytes bytes → (verdict : Result Parts RtsFault)
        × Judged bytes verdict }
    ensures packet { (a b : Parts) → IsPacket a → IsPacket b → packet_bytes a ≡ packet_bytes b
        → a ≡ b }
    ensures prefix { (a b : Parts) (rest : List ℕ) → IsPacket a → IsPacket b
        → packet_bytes a ++ rest ≡ packet_bytes b → rest ≡ [] }
    ensures fault { (bytes : List ℕ) (x y : RtsFault) → FirstFault bytes x → FirstFault bytes y
        → x ≡ y }
    ensures never_both { (p : Parts) (x : RtsFault) → IsPacket p → ¬ FirstFault (packet_bytes p) x }
{}

/// `read_packet` computes the packet that bytes are, or their first fault, and no other judgement
/// of them holds; it reads back each packet; and the bytes of a packet are as many as the
/// frag_length in their header says, whatever stands behind them. This function does nothing, and
/// its contract is these laws.
pub fn packets_are_read()
    ensures judged { (bytes : List ℕ) → IsBytes bytes → Judged bytes (read_packet bytes) }
    ensures only { (bytes : List ℕ) (verdict : Result Parts RtsFault) → Judged bytes verdict
        → verdict ≡ read_packet bytes }
    ensures back { (p : Parts) → IsPacket p → read_packet (packet_bytes p) ≡ Ok p }
    ensures length { (p : Parts) (rest : List ℕ) → IsPacket p
        → frag_of (packet_bytes p ++ rest) ≡ length (packet_bytes p) }
{}
