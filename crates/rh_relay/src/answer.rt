//! What the jobs of a node answer.

use rh_actors::Actor;
use rh_legs::NodeEnd;
use rh_machines::Node;
use rh_net::Address;
use rh_slots::Served;

/// What a job answers: its node, who acted, why it ended, and what it had of the outside.
#[derive(Drop)]
pub struct Done<M: Node, S: Drop, W: Drop, I: Drop, O: Drop>
where
    M::State: Drop,
{
    /// The place of its node.
    pub(crate) node: usize,
    pub(crate) actor: Actor<M>,
    pub(crate) end: NodeEnd,
    pub(crate) had: Had<S, W, I, O>,
}

/// What a job had of the outside.
#[derive(Drop)]
pub enum Had<S: Drop, W: Drop, I: Drop, O: Drop> {
    /// A keeper: the leg of a caller whose first read failed, and the first address at which the
    /// net failed.
    Kept {
        failed: Option<(I, O)>,
        unreached: Option<Address>,
    },
    /// A slot's reader: the legs that it read, in order.
    Read(Vec<Served<I>>),
    /// A slot's writer: the legs that it wrote, in order.
    Wrote(Vec<Served<O>>),
    /// The giver.
    Input(S),
    /// The taker.
    Output(W),
}
