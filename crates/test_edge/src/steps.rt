//! Steps of two nets and of the legs between them, each with what must come of it. A test is a list
//! of them, and what it calls is proved here once for all.

pub mod calls;
pub mod halves;

pub use calls::{Call, Told};
pub use halves::{Act, Leg};
use rh_net::{Address, Ready};

/// One of two nets.
#[derive(Clone, Copy)]
pub enum Side {
    /// It connects.
    Caller,
    /// It listens, and accepts.
    Callee,
}

/// What is done, and what comes of it.
#[derive(Clone, Copy)]
pub enum Step {
    /// A call of a net. Each leg that it gives has the next number, from 0.
    At(Side, Call),
    /// Something done with the leg of a number.
    On(usize, Act),
}

/// Two nets, of which one connects to an address, and their legs.
#[derive(Drop)]
pub struct Nets<N: Told + Drop>
where
    N::In: Ready + Drop,
    N::Out: Drop,
{
    pub caller: N,
    pub callee: N,
    pub to: Address,
    pub legs: Vec<Leg<N::In, N::Out>>,
}

impl<N: Told + Drop> Nets<N>
where
    N::In: Ready + Drop,
    N::Out: Drop,
{
    /// The number of the first step from which something else comes; `None` where there is none.
    pub fn first_wrong(&mut self, steps: &[Step]) -> Option<usize> {
        for (number, step) in steps.iter().enumerate() {
            if !self.holds(*step) {
                return Some(number);
            }
        }
        None
    }

    fn holds(&mut self, step: Step) -> bool {
        match step {
            Step::At(Side::Caller, call) => {
                call.holds(&mut self.caller, &self.to, &mut self.legs)
            }
            Step::At(Side::Callee, call) => {
                call.holds(&mut self.callee, &self.to, &mut self.legs)
            }
            Step::On(leg, act) if leg < self.legs.len() => act.holds(&mut self.legs[leg]),
            Step::On(_, _) => false,
        }
    }
}

/// The two ends of a leg between two nets: the caller's, and the callee's.
pub fn two_ends<N: Told + Drop>(nets: Nets<N>) -> Option<(Leg<N::In, N::Out>, Leg<N::In, N::Out>)>
where
    N::In: Ready + Drop,
    N::Out: Drop,
{
    static STEPS: [Step; 3] = [
        Step::At(Side::Callee, Call::Listens),
        Step::At(Side::Caller, Call::Connects),
        Step::At(Side::Callee, Call::Accepts),
    ];
    let mut nets = nets;
    if nets.first_wrong(&STEPS).is_some() {
        return None;
    }
    let callee = nets.legs.pop();
    both(nets.legs.pop(), callee)
}

fn both<T: Drop>(first: Option<T>, second: Option<T>) -> Option<(T, T)> {
    match (first, second) {
        (Some(first), Some(second)) => Some((first, second)),
        _ => None,
    }
}
