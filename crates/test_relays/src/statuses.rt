//! The statuses of the role words.

use rh_legs::NodeEnd;
use rh_line::{Cause, Leg, LegKind};
use rh_role_words::{RoleStatus, status_of_ends};
use std::test::*;

const CI1: Leg = Leg {
    kind: LegKind::ClientIn,
    number: 1,
};

const REFUSED: Cause = Cause::HttpRefused {
    leg: CI1,
    status: 503,
};

/// Each status, with its number and its text.
const STATUSES: [(RoleStatus, u8, &str); 12] = [
    (RoleStatus::Done, 0, "done"),
    (RoleStatus::Usage, 1, "usage"),
    (RoleStatus::BadInput(1), 2, "bad input 1"),
    (
        RoleStatus::BadInput(u64::MAX),
        2,
        "bad input 18446744073709551615",
    ),
    (RoleStatus::ReadFault, 3, "read fault"),
    (RoleStatus::WriteFault, 4, "write fault"),
    (RoleStatus::NetFault, 5, "net fault"),
    (RoleStatus::SpawnFault, 6, "spawn fault"),
    (
        RoleStatus::Closed(Cause::LegBroken { leg: CI1 }),
        7,
        "closed 1 LegBroken ci1",
    ),
    (
        RoleStatus::Closed(REFUSED),
        7,
        "closed 9 HttpRefused ci1 503",
    ),
    (RoleStatus::NoMemory, 8, "no memory"),
    (RoleStatus::CookieFault, 10, "cookie fault"),
];

#[test]
fn each_status_has_its_number_and_its_text(rt: HostRuntime) -> Result<(), Fail> {
    for (status, number, wanted) in STATUSES {
        let mut text = String::from_str(rt.alloc(), "before ")?;
        status.write(&mut text)?;
        assert_eq!(rt; status.number(), number);
        assert_eq!(rt; text.as_str().strip_prefix("before "), Some(wanted));
    }
    Ok(())
}

#[test]
fn one_of_several_ends_is_told(rt: HostRuntime) -> Result<(), Fail> {
    let refused = NodeEnd::Closed(REFUSED);
    let broken = NodeEnd::Closed(Cause::LegBroken { leg: CI1 });
    let in_order = [NodeEnd::Ended, NodeEnd::Ended];
    assert_eq!(rt; status_of_ends(&in_order), RoleStatus::Done);
    let two_closed = [NodeEnd::Ended, refused, broken];
    assert_eq!(rt; status_of_ends(&two_closed), RoleStatus::Closed(REFUSED));
    let one_failed = [refused, NodeEnd::NetFault, NodeEnd::Ended];
    assert_eq!(rt; status_of_ends(&one_failed), RoleStatus::NetFault);
    let two_bad = [
        NodeEnd::BadInput(3),
        NodeEnd::WriteFault,
        NodeEnd::BadInput(1),
    ];
    assert_eq!(rt; status_of_ends(&two_bad), RoleStatus::BadInput(3));
    let no_memory = [NodeEnd::BadInput(3), NodeEnd::NoMemory];
    assert_eq!(rt; status_of_ends(&no_memory), RoleStatus::NoMemory);
    Ok(())
}
