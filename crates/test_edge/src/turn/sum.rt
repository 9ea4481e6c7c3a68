//! A machine whose state is a number. An event n adds n, and the reply is the sum.

use rh_turn::Machine;

pub struct Sum;

impl Machine for Sum {
    ghost use Rattle.std.specs.Prelude.{◌+◌, ◌%◌, ◌^◌};

    type State = u64;

    type Event = u64;

    type Reply = u64;

    ghost next = { λ sum n. (sum + n) % 2 ^ 64 };

    ghost reply = { λ sum n. (sum + n) % 2 ^ 64 };

    fn act(state: &mut u64, event: u64) -> u64 {
        *state = state.wrapping_add(event);
        *state
    }
}
