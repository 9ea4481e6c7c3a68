//! One thread, with one or two seats.

use crate::turn::sum::Sum;
use rh_turn::Turn;
use std::test::Fail;

#[test]
fn replies_stand_in_one_order(rt: HostRuntime) -> Result<(), Fail> {
    let Ok((turn, mut first)) = Turn::<Sum>::new(rt.alloc(), 0, 2) else {
        panic!(rt; "no memory")
    };
    let five = turn.act(&rt, &mut first, 5);
    let mut second = turn.split(&mut first);
    let twelve = turn.act(&rt, &mut second, 7);
    let thirteen = turn.act(&rt, &mut first, 1);
    turn.join(&mut first, second);
    let last = turn.close(first);
    assert!(rt; [five, twelve, thirteen, last] == [5, 12, 13, 13]);
    Ok(())
}

#[test]
fn a_turn_that_never_acted_closes_with_its_first_state(rt: HostRuntime) -> Result<(), Fail> {
    let Ok((turn, seat)) = Turn::<Sum>::new(rt.alloc(), 41, 1) else {
        panic!(rt; "no memory")
    };
    assert!(rt; turn.close(seat) == 41);
    Ok(())
}
