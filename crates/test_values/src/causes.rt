//! The texts of legs and causes.

use rh_http::HttpFault;
use rh_line::{Cause, Leg, LegKind, write_cause, write_leg};
use rh_pdu::HeadFault;
use rh_rts::{Cookie, RtsFault, RtsKind};
use std::test::Fail;

/// A leg between a client and an out proxy.
const LEG: Leg = Leg {
    kind: LegKind::ClientOut,
    number: 2,
};
/// The bytes 0 to 15.
const EXPECTED: Cookie = Cookie([0, 1, 2, 3, 4, 5, 6, 7, 8, 9, 10, 11, 12, 13, 14, 15]);
/// Sixteen times 255.
const GOT: Cookie = Cookie([255; 16]);

#[test]
fn a_leg_is_its_letters_and_its_number(rt: HostRuntime) -> Result<(), Fail> {
    let rows = [
        (LegKind::ClientOut, 1, "co1"),
        (LegKind::OutServer, 20, "os20"),
        (LegKind::ClientIn, 3, "ci3"),
        (LegKind::InServer, u32::MAX, "is4294967295"),
    ];
    for (kind, number, wanted) in rows {
        let mut text = String::new(rt.alloc());
        write_leg(Leg { kind, number }, &mut text)?;
        assert_eq!(rt; text.as_str(), wanted);
    }
    Ok(())
}

/// The thirteen causes.
static CAUSES: [(Cause, &str); 13] = [
    (Cause::LegBroken { leg: LEG }, "1 LegBroken co2"),
    (
        Cause::LegEnded {
            leg: LEG,
            partial: 15,
        },
        "2 LegEnded co2 15",
    ),
    (
        Cause::BadFrame {
            leg: LEG,
            place: 97,
            fault: HeadFault::TooShort(4),
        },
        "3 BadFrame co2 97 TooShort 4",
    ),
    (
        Cause::BadPacket {
            leg: LEG,
            place: 83,
            fault: RtsFault {
                place: 20,
                kind: RtsKind::BadType,
            },
        },
        "4 BadPacket co2 83 BadType 20",
    ),
    (
        Cause::Unexpected {
            leg: LEG,
            place: u64::MAX,
        },
        "5 Unexpected co2 18446744073709551615",
    ),
    (
        Cause::CookieMismatch {
            leg: LEG,
            expected: EXPECTED,
            got: GOT,
        },
        "6 CookieMismatch co2 00010203-0405-0607-0809-0a0b0c0d0e0f \
         ffffffff-ffff-ffff-ffff-ffffffffffff",
    ),
    (
        Cause::WindowExceeded {
            leg: LEG,
            reached: 65_560,
            edge: 65_536,
        },
        "7 WindowExceeded co2 65560 65536",
    ),
    (
        Cause::OutOfRange {
            leg: LEG,
            command: 2,
            value: 119_999,
        },
        "8 OutOfRange co2 2 119999",
    ),
    (
        Cause::HttpRefused {
            leg: LEG,
            status: 503,
        },
        "9 HttpRefused co2 503",
    ),
    (
        Cause::BadHead {
            leg: LEG,
            place: 0,
            fault: HttpFault::Syntax,
        },
        "10 BadHead co2 0 Syntax",
    ),
    (
        Cause::Silent {
            leg: LEG,
            since: 1_000,
            now: 241_000,
        },
        "11 Silent co2 1000 241000",
    ),
    (Cause::ControlFull { leg: LEG }, "12 ControlFull co2"),
    (
        Cause::BodyOver {
            leg: LEG,
            count: 77,
            length: 76,
        },
        "13 BodyOver co2 77 76",
    ),
];

#[test]
fn a_cause_is_its_number_its_name_and_its_fields(rt: HostRuntime) -> Result<(), Fail> {
    for (cause, wanted) in &CAUSES {
        let mut text = String::new(rt.alloc());
        write_cause(cause, &mut text)?;
        assert_eq!(rt; text.as_str(), *wanted);
    }
    Ok(())
}
