//! Worlds driven by their calls.

use rh_line::{Leg, LegKind};
use rh_nodes::Half;
use rh_record::{Bytes, Dir, Line, Report, Side, Who, write_report};
use rh_rts::Cookie;
use rh_world::{Roles, RolesWorld, World, WorldConfig};
use std::test::Fail;

const CI1: Leg = Leg {
    kind: LegKind::ClientIn,
    number: 1,
};
/// What was up for the client alone is lost with its leg, also for a proxy that comes up later.
const LEFT_EARLY: &str = "send ci1 u 309
move ci1 u 0
up given 0 taken 0
down given 0 taken 0
client closed 1 LegBroken ci1
server opening in 1 out 1
";

#[test]
fn a_world_takes_lines_until_it_is_full(rt: HostRuntime) -> Result<(), Fail> {
    let mut world = World::new(rt.alloc(), &WorldConfig::direct())?;
    let mut report = Report::new(rt.alloc());
    let side = Side::Client;
    for line in [
        Line::First { roles: false },
        Line::Give {
            side,
            pdu: Bytes::new(vec![in rt.alloc(); 5]?),
        },
        Line::Send {
            leg: None,
            dir: Dir::U,
            count: 100,
        },
    ] {
        assert!(rt; !world.is_full());
        world.step(rt.alloc(), &line, &mut report)?;
    }
    world.last(&mut report)?;
    let mut text = String::new(rt.alloc());
    write_report(&report, &mut text)?;
    let wanted = "give c bad Cut 1\nsend cs u 0\nup given 0 taken 0\ndown given 0 taken 0\n";
    assert_eq!(rt; text.as_str(), wanted);
    report.clear();
    assert!(rt; report.answers().is_empty());
    Ok(())
}

#[test]
fn a_half_step_tells_one_node_alone(rt: HostRuntime) -> Result<(), Fail> {
    let alloc = rt.alloc();
    let mut world = RolesWorld::new(alloc, &Roles::new(WorldConfig::roles()))?;
    let mut report = Report::new(alloc);
    let (leg, dir, count) = (Some(CI1), Dir::U, 65_536);
    let up = |who| Half::Up {
        who,
        leg: CI1,
        cookie: Cookie([9; 16]),
    };
    let broken = Half::Broken {
        who: Who::Client,
        leg: CI1,
    };
    assert!(rt; world.half(alloc, &up(Who::Client))?);
    assert!(rt; !world.half(alloc, &up(Who::Client))?);
    world.step(alloc, &Line::Send { leg, dir, count }, &mut report)?;
    assert!(rt; world.half(alloc, &broken)?);
    assert!(rt; !world.half(alloc, &broken)?);
    assert!(rt; world.half(alloc, &up(Who::In(1)))?);
    world.step(alloc, &Line::Move { leg, dir, count }, &mut report)?;
    world.last(&mut report)?;
    let mut text = String::new(alloc);
    write_report(&report, &mut text)?;
    assert_eq!(rt; text.as_str(), LEFT_EARLY);
    Ok(())
}
