//! Two threads that act on one turn.

ghost use Rattle.std.specs.Prelude.{◌≡◌};

use crate::turn::sum::Sum;
use rh_turn::{Seat, Turn};
use std::sync::Wait;
use std::test::Fail;
use std::thread::join;

// Acts 1 so many times.
fn act_ones<R: Wait>(rt: &R, turn: &Turn<Sum>, mut seat: Seat<Sum>, count: u32) -> Seat<Sum>
    requires { seat.turn ≡ turn.now.id }
    ensures { (result.turn ≡ seat.turn) × (result.parts ≡ seat.parts) }
{
    for _call in 0..count {
        turn.act(rt, &mut seat, 1);
    }
    seat
}

#[test]
fn two_threads_act_a_thousand_times_each(rt: HostRuntime) -> Result<(), Fail> {
    let Ok((turn, mut first)) = Turn::<Sum>::new(rt.alloc(), 0, 2) else {
        panic!(rt; "no memory")
    };
    let second = turn.split(&mut first);
    let (rt_at, at) = (&rt, &turn);
    let (mut first, second) = join(
        &rt,
        move || -> Seat<Sum>
            requires { first.turn ≡ at.now.id }
            ensures { (result.turn ≡ first.turn) × (result.parts ≡ first.parts) }
        { act_ones(rt_at, at, first, 1000) },
        move || -> Seat<Sum>
            requires { second.turn ≡ at.now.id }
            ensures { (result.turn ≡ second.turn) × (result.parts ≡ second.parts) }
        { act_ones(rt_at, at, second, 1000) },
    );
    turn.join(&mut first, second);
    assert!(rt; turn.close(first) == 2000);
    Ok(())
}
