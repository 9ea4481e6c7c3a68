//! How a client receives on its OUT channels, whatever comes from any peer.

ghost use Rattle.std.specs.Prelude.{◌≡◌, ◌+◌, List, [], false, length, ℕ};
ghost use Rattle.rh_window.specs.Sides.{IsWindow};
ghost use Rattle.rh_rts.specs.declared.command.Cookie.{Cookie};
ghost use Rattle.rh_rts.specs.declared.command.TheConstants.{TO_OUT_PROXY};
ghost use Rattle.rh_sig.specs.declared.named.Named.{Named};
ghost use Rattle.rh_sig.specs.declared.named.Named.TheVariants.{AckTo};
ghost use Rattle.rh_http.specs.declared.config.ClientConfig.{ClientConfig};
ghost use Rattle.rh_line.specs.declared.leg.Leg.{Leg};
ghost use Rattle.rh_line.specs.declared.leg.LegKind.TheVariants.{ClientOut};
ghost use Rattle.rh_shell.specs.declared.answers.Count.{Count};
ghost use Rattle.rh_shell.specs.Shells.{is_of};
ghost use Rattle.rh_client.specs.State.{co};
ghost use Rattle.rh_client.specs.Client.{rules};
ghost use Rattle.law_moves.specs.Moves.{EndMove};
ghost use Rattle.law_moves.specs.Wires.{of_leg};
ghost use Rattle.law_moves.specs.Passages.Passing.{pdu_bytes, Has};
ghost use Rattle.law_moves.specs.Passages.Rising.{AreUpFirst};
ghost use Rattle.law_role_client.specs.Order.{AreAllowedMoves, client_moved};
ghost use Rattle.law_role_client.specs.Receiving.{CountsWhatCame, IsBehindAcks, IsBehindWindow};
ghost use Rattle.law_role_client.specs.Receiving.{IsNoWindow, IsTrueAck, IsWithinWindow};
ghost use Rattle.law_role_client.specs.Receiving.{OpensWith, RefusesBehind};

/// Whatever happens to a client: it refuses an RPC PDU on an OUT channel for its window only where
/// that ends behind the window that it told with the channel's first packet, and, if PDUs and
/// packets came only on legs that came up before, behind all that its acknowledgements told with
/// the cookie with which the leg came up, and no other OUT leg did. It refuses nothing else for a
/// window (MS-RPCH 3.2).
pub fn a_client_receives_within_its_window()
    ensures windows { (config : ClientConfig) (moves : List EndMove) → IsWindow config.window
        → AreAllowedMoves config moves
        → (k : ℕ) (count : Count) (bytes : List ℕ)
        → let p = (client_moved config moves).passage in
        RefusesBehind (IsBehindWindow k p.put)
        (pdu_bytes (of_leg (co k) p.came) + length bytes) (rules.pdu p.role (co k) count bytes).1 }
    ensures acks { (config : ClientConfig) (moves : List EndMove) → IsWindow config.window
        → AreAllowedMoves config moves → AreUpFirst [] moves
        → (k : ℕ) (count : Count) (bytes : List ℕ)
        → let p = (client_moved config moves).passage in
        RefusesBehind (IsBehindAcks k moves p.put)
        (pdu_bytes (of_leg (co k) p.came) + length bytes) (rules.pdu p.role (co k) count bytes).1 }
    ensures others { (config : ClientConfig) (moves : List EndMove) (leg : Leg) (count : Count)
        (bytes : List ℕ) → is_of ClientOut leg ≡ false
        → IsNoWindow (rules.pdu (client_moved config moves).passage.role leg count bytes).1 }
    ensures packets { (config : ClientConfig) (moves : List EndMove) (leg : Leg) (count : Count)
        (named : Named)
        → IsNoWindow (rules.packet (client_moved config moves).passage.role leg count named).1 }
{}

/// Whatever happens to a client: each acknowledgement with a destination that it put is to an out
/// proxy; and, if PDUs and packets came only on legs that came up before, it has the cookie with
/// which the leg of an OUT channel came up, is of no more bytes of RPC PDUs than came there, and
/// has a window that is none too great (MS-RPCH 3.2.1).
pub fn a_client_acknowledges_what_came()
    ensures destinations { (config : ClientConfig) (moves : List EndMove)
        → IsWindow config.window → AreAllowedMoves config moves
        → (leg : Leg) (destination received available : ℕ) (cookie : Cookie)
        → Has (AckTo destination received available cookie)
        (of_leg leg (client_moved config moves).passage.put)
        → destination ≡ TO_OUT_PROXY }
    ensures acks { (config : ClientConfig) (moves : List EndMove) → IsWindow config.window
        → AreAllowedMoves config moves → AreUpFirst [] moves
        → (leg : Leg) (destination received available : ℕ) (cookie : Cookie)
        → Has (AckTo destination received available cookie)
        (of_leg leg (client_moved config moves).passage.put)
        → IsTrueAck moves (client_moved config moves).passage.came received available cookie }
{}

/// Whatever happens to a client: the windows of its OUT channels count no more bytes of RPC PDUs
/// than came on their legs, and each channel opens with its own window. If PDUs and packets came
/// only on legs that came up before, each acknowledgement is of a channel up to the current one, is
/// of a window no greater than its own, and of the current channel it tells no more than that one's
/// window told (MS-RPCH 3.2).
pub fn a_client_tells_what_its_windows_told()
    ensures counted { (config : ClientConfig) (moves : List EndMove) → IsWindow config.window
        → AreAllowedMoves config moves → CountsWhatCame (client_moved config moves).passage }
    ensures opened { (config : ClientConfig) (moves : List EndMove) → IsWindow config.window
        → AreAllowedMoves config moves
        → OpensWith config.window (client_moved config moves).passage.put }
    ensures acks { (config : ClientConfig) (moves : List EndMove) → IsWindow config.window
        → AreAllowedMoves config moves → AreUpFirst [] moves
        → (leg : Leg) (destination received available : ℕ) (cookie : Cookie)
        → Has (AckTo destination received available cookie)
        (of_leg leg (client_moved config moves).passage.put)
        → IsWithinWindow config.window moves (client_moved config moves).passage received
        available cookie }
{}
