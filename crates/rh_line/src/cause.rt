//! Why a role closed.

use crate::leg::Leg;
use rh_http::HttpFault;
use rh_pdu::HeadFault;
use rh_rts::{Cookie, RtsFault};

/// Why a role closed: the first thing that no rule allows. A place is the index of a byte, from 0,
/// among all bytes that the role was fed on that leg; one above the greatest u64 is told as that.
#[derive(Clone, Copy, Debug, PartialEq, Eq)]
pub enum Cause {
    /// 1: the leg failed, or a leg that was wanted could not be connected.
    LegBroken {
        leg: Leg,
    },
    /// 2: the other side ended the leg, of which `partial` bytes of an unfinished head, greeting or
    /// frame are held.
    LegEnded {
        leg: Leg,
        partial: u32,
    },
    /// 3: the header of the frame at the place breaks a rule.
    BadFrame {
        leg: Leg,
        place: u64,
        fault: HeadFault,
    },
    /// 4: the RTS PDU at the place is no packet.
    BadPacket {
        leg: Leg,
        place: u64,
        fault: RtsFault,
    },
    /// 5: no rule takes the packet, PDU or greeting at the place.
    Unexpected {
        leg: Leg,
        place: u64,
    },
    /// 6: a packet that a rule takes names the cookie `got` where the rule asks for `expected`.
    CookieMismatch {
        leg: Leg,
        expected: Cookie,
        got: Cookie,
    },
    /// 7: a PDU ends behind what its sender was told: at `reached`, where `edge` is the most. Both
    /// are in bytes of RPC PDUs from the channel's beginning (MS-RPCH 3.2).
    WindowExceeded {
        leg: Leg,
        reached: u64,
        edge: u64,
    },
    /// 8: the `value` of a command of the type `command` is out of its range, or an acknowledgement
    /// is of more than was sent (MS-RPCH 2.2.3.5).
    OutOfRange {
        leg: Leg,
        command: u32,
        value: u32,
    },
    /// 9: a proxy answered a client's request for an OUT channel with this `status`, which isn't
    /// 200, or one for an IN channel at all.
    HttpRefused {
        leg: Leg,
        status: u16,
    },
    /// 10: a head breaks a rule, at the place at which that is told (RFC 9112).
    BadHead {
        leg: Leg,
        place: u32,
        fault: HttpFault,
    },
    /// 11: no byte came from the moment `since` to the moment `now`, as long as the leg may be
    /// silent. Moments are in milliseconds.
    Silent {
        leg: Leg,
        since: u64,
        now: u64,
    },
    /// 12: a packet is to be forwarded on the leg, where there is no room for another (profile).
    ControlFull {
        leg: Leg,
    },
    /// 13: the byte numbered `count` of a body came, which has `length` bytes.
    BodyOver {
        leg: Leg,
        count: u64,
        length: u32,
    },
}
