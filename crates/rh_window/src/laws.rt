//! Laws of a hop. These functions do nothing: their contracts are the laws.

ghost use Rattle.std.specs.Prelude.{◌≡◌, ◌-◌, ◌<◌, ◌≤◌, ℕ, List, [], IsSome, Ok, false};
ghost use Rattle.rh_window.specs.declared.recv_window.Ack.{Ack};
ghost use Rattle.rh_window.specs.Sides.{IsWindow};
ghost use Rattle.rh_window.specs.Sending.{may_send, ack_verdict};
ghost use Rattle.rh_window.specs.Receiving.{opened, shut, admit_verdict, due};
ghost use Rattle.rh_window.specs.Hops.{Hop, IsHop, IsUnused, IsDrained, Event, Learns, Hears, Admits, begun, CanHappen, after, CanRun, run, Rises, IsAnnounced, LosesNone};

use crate::range::LEAST_WINDOW;

/// A hop keeps its relation, whatever happens on it and in whatever order, with acknowledgements
/// that come late; and nothing that was counted or told is taken back.
pub fn hop_is_kept()
    ensures opened { (size : ℕ) → IsWindow size → IsHop (begun (opened size)) }
    ensures shut { (size : ℕ) → IsWindow size → IsHop (begun (shut size)) }
    ensures step { (h : Hop) (event : Event) → IsHop h → CanHappen h event
        → IsHop (after h event) }
    ensures rise { (h : Hop) (event : Event) → IsHop h → CanHappen h event
        → Rises h (after h event) }
    ensures run { (events : List Event) (h : Hop) → IsHop h → CanRun h events
        → IsHop (run h events) × Rises h (run h events) }
{}

/// On a hop nothing is refused: neither a PDU that was sent, nor an acknowledgement that was told,
/// however late it comes. While the receiver's window is shut, nothing was sent.
pub fn hop_is_honest()
    ensures pdu { (h : Hop) (len : ℕ) → IsHop h → CanHappen h (Admits len)
        → admit_verdict h.receiver len ≡ Ok tt }
    ensures ack { (h : Hop) (ack : Ack) → IsHop h → CanHappen h (Hears ack)
        → ack_verdict h.sender ack.received ack.available ≡ Ok tt }
    ensures shut { (h : Hop) → IsHop h → h.receiver.told ≡ 0 → IsUnused h }
{}

/// From when the sender learns the size of the window, what it doesn't know of what was told is on
/// its way, unless that is lost. So it knows all once nothing is on its way.
pub fn hop_is_announced()
    ensures learns { (h : Hop) → IsHop h → CanHappen h Learns → IsAnnounced (after h Learns) }
    ensures step { (h : Hop) (event : Event) → IsHop h → IsAnnounced h → CanHappen h event
        → LosesNone h event → IsAnnounced (after h event) }
    ensures known { (h : Hop) → IsHop h → IsAnnounced h → h.acks ≡ []
        → h.sender.edge ≡ h.receiver.told }
{}

/// No window stays shut for want of an acknowledgement: once all that was sent came and was passed
/// on, and the sender knows what was told, one is due if the longest RPC PDU might not fit, and so
/// if any may not go.
pub fn hop_goes_on()
    ensures due { (h : Hop) → IsHop h → IsDrained h → h.sender.edge - h.sender.sent < LEAST_WINDOW
        → IsSome (due h.receiver) }
    ensures refused { (h : Hop) (len : ℕ) → IsHop h → IsDrained h → len ≤ LEAST_WINDOW
        → may_send h.sender len ≡ false → IsSome (due h.receiver) }
{}
