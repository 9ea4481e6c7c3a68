//! Named packets that no bytes give: values out of range, and destinations above the greatest.

use rh_rts::{Cookie, view};
use rh_sig::{Named, Pipe, SigFault, name_of, read_named, write_named};

const A: Cookie = Cookie([1; 16]);

const B: Cookie = Cookie([2; 16]);

const C: Cookie = Cookie([3; 16]);

// The length of what was written into the room.
fn written(named: &Named, room: &mut [u8]) -> Option<usize> {
    if named.may_be_written() {
        write_named(named, room).ok()
    } else {
        None
    }
}

// A packet, a pipe that carries it, and the type and value of its first command out of range.
static VALUES: [(Named, Pipe, Option<(u32, u32)>); 30] = [
    (Named::InR1B2(8_191), Pipe::IsD, Some((0, 8_191))),
    (Named::InR1B2(8_192), Pipe::IsD, None),
    (Named::InR1B2(262_144), Pipe::IsD, None),
    (Named::InR1B2(262_145), Pipe::IsD, Some((0, 262_145))),
    (Named::ConnA3(119_999), Pipe::CoD, Some((2, 119_999))),
    (Named::ConnA3(120_000), Pipe::CoD, None),
    (Named::ConnA3(14_400_000), Pipe::CoD, None),
    (Named::ConnA3(14_400_001), Pipe::CoD, Some((2, 14_400_001))),
    (
        Named::ConnA2(1, A, B, 131_071, 8_192),
        Pipe::OsU,
        Some((4, 131_071)),
    ),
    (Named::ConnA2(1, A, B, 131_072, 8_192), Pipe::OsU, None),
    (
        Named::ConnA2(1, A, B, 2_147_483_648, 8_192),
        Pipe::OsU,
        None,
    ),
    (
        Named::ConnA2(1, A, B, 2_147_483_649, 8_192),
        Pipe::OsU,
        Some((4, 2_147_483_649)),
    ),
    (Named::KeepAlive(0), Pipe::CiU, None),
    (Named::KeepAlive(1), Pipe::CiU, Some((5, 1))),
    (Named::KeepAlive(59_999), Pipe::CiU, Some((5, 59_999))),
    (Named::KeepAlive(60_000), Pipe::CiU, None),
    (Named::KeepAlive(4_294_967_295), Pipe::CiU, None),
    (Named::ConnB3(8_192, 0), Pipe::IsD, Some((6, 0))),
    (Named::ConnB3(8_192, 1), Pipe::IsD, None),
    (Named::ConnB3(8_192, 2), Pipe::IsD, Some((6, 2))),
    // The first of two or three is told.
    (Named::ConnB3(262_145, 0), Pipe::IsD, Some((0, 262_145))),
    (Named::ConnC2(2, 8_191, 119_999), Pipe::CoD, Some((6, 2))),
    (
        Named::InR1A4(0, 1, 8_190, 119_999),
        Pipe::CoD,
        Some((0, 8_190)),
    ),
    (
        Named::OutR1A4(1, A, B, C, 131_070, 8_191, 0),
        Pipe::OsU,
        Some((4, 131_070)),
    ),
    // These have no range.
    (Named::Ack(0, 0, A), Pipe::OsU, None),
    (Named::Ack(4_294_967_295, 4_294_967_295, A), Pipe::IsD, None),
    (Named::PingTraffic(0), Pipe::OsU, None),
    (Named::PingTraffic(4_294_967_295), Pipe::OsU, None),
    (Named::OutR1A1(3), Pipe::OsD, None),
    (Named::InR2A4(3), Pipe::CoD, None),
];

// Whether the packet is refused on this pipe for this value, or else is read.
fn has_value(named: Named, pipe: Pipe, wrong: Option<(u32, u32)>) -> bool {
    let mut room = [0; 160];
    let Some(len) = written(&named, &mut room) else {
        return false;
    };
    if len > room.len() {
        return false;
    }
    let Ok(seen) = view(&room[..len]) else {
        return false;
    };
    let want = match wrong {
        Some((command, value)) => Err(SigFault::OutOfRange { command, value }),
        None => Ok(named),
    };
    read_named(&seen, pipe) == want && name_of(&seen, pipe) == Some(named.name())
}

#[test]
fn each_range_has_its_two_ends_and_the_first_value_out_of_it_is_told(rt: HostRuntime) {
    for (named, pipe, wrong) in &VALUES {
        assert!(rt; has_value(*named, *pipe, *wrong), "{:?}", named);
    }
}

// A cookie of 15 zero bytes and this one.
const fn cookie(last: u8) -> Cookie {
    Cookie([0, 0, 0, 0, 0, 0, 0, 0, 0, 0, 0, 0, 0, 0, 0, last])
}

#[test]
fn a_destination_above_the_greatest_may_not_be_written(rt: HostRuntime) {
    assert!(rt; !Named::InR2A3(4).may_be_written());
    assert!(rt; !Named::InR2A4(4_294_967_295).may_be_written());
    assert!(rt; !Named::AckTo(4, 0, 0, cookie(9)).may_be_written());
    assert!(rt; Named::InR2A4(3).may_be_written());
}
