//! The board that several nets in memory share.

ghost use Rattle.std.specs.Prelude.{◌≡◌, IfOk, vec_len};
ghost use Rattle.std.specs.Arc.{arc_value};
ghost use Rattle.rh_net.specs.Memory.Legs.{the_way, of_leg};

use crate::Address;
use crate::in_memory::callers::Callers;
use crate::in_memory::lane::Lane;
use crate::in_memory::two_ways::{Half, Party, TwoWays, ways_of};
use rh_io::NoMemory;
use std::alloc::Global;
use std::sync::{Arc, Mutex, Wait};

/// Callers by the address that they connect to, and the legs between them and those who accept.
///
/// All its memory is taken when it is made. No leg is used twice.
#[derive(Drop)]
pub struct Board {
    callers: Mutex<Callers>,
    legs: Vec<TwoWays<Lane>>,
    // The leg of who accepts where nobody calls.
    ended: TwoWays<Lane>,
}

impl Board {
    /// A board for so many legs in all, each with 131,072 bytes. Past them nobody can connect.
    pub fn new(alloc: Global, legs: u32) -> Result<Arc<Board, Global>, NoMemory>
        ensures legs { IfOk result (λ board. vec_len (arc_value board).legs ≡ legs) }
    {
        let board = Board {
            callers: Mutex::new(Callers::new(alloc, legs as usize)?),
            legs: new_legs(alloc, legs)?,
            ended: TwoWays {
                to_callee: Lane::ended(alloc)?,
                to_caller: Lane::ended(alloc)?,
            },
        };
        Ok(Arc::new(alloc, board)?)
    }

    /// Puts a caller on the board, and answers the number of its leg; `None` where no leg is left.
    pub(crate) fn call<R: Wait>(&self, rt: &R, to: &Address) -> Option<usize> {
        self.callers.lock(rt).call(to)
    }

    /// Takes the first caller to an address off the board, and answers the number of its leg.
    pub(crate) fn answer<R: Wait>(&self, rt: &R, at: &Address) -> Option<usize> {
        self.callers.lock(rt).answer(at)
    }

    /// What a party's half of a leg reads or writes; of no leg, what has ended.
    pub(crate) fn lane(&self, leg: Option<usize>, party: Party, half: Half) -> &Lane
        ensures { result.now ≡ the_way (of_leg self.now.legs.items leg self.now.ended) party half }
    {
        ways_of(&self.legs, leg, &self.ended).of(party, half)
    }
}

// So many legs, each with two empty lanes.
fn new_legs(alloc: Global, legs: u32) -> Result<Vec<TwoWays<Lane>>, NoMemory>
    ensures { IfOk result (λ made. vec_len made ≡ legs) }
{
    let mut made = Vec::with_capacity(alloc, legs as usize)?;
    for _leg in 0..legs {
        made.push(TwoWays {
            to_callee: Lane::new(alloc)?,
            to_caller: Lane::new(alloc)?,
        })?;
    }
    Ok(made)
}
