//! Nodes: what the machines of the four roles have in common.

ghost use Rattle.std.specs.Prelude.{◌≡◌, ℕ, IfOk};
ghost use Rattle.rh_machines.specs.HandingBack.{HandsBack};
ghost use Rattle.rh_machines.specs.declared.node.Role.{Role as Played};

use crate::event::{NodeEvent, NodeReply};
use rh_turn::Machine;
use std::alloc::{AllocError, Global};

/// Which role a node plays.
#[derive(Clone, Copy, Debug, PartialEq, Eq)]
pub enum Role {
    Client,
    InProxy,
    OutProxy,
    Server,
}

/// The machine of a role.
pub trait Node: Machine<Event = NodeEvent, Reply = NodeReply> {
    /// What a node is made with.
    type Config;

    const ROLE: Role;

    /// Its role.
    ghost ROLE: { Played };

    /// The configurations with which it can be made.
    ghost can_make: { Self.Config → Type 0 };

    /// Its first state.
    ghost first: { Self.Config → Self.State };

    /// The number of its channel at a proxy, 1 at an end.
    ghost numbered: { Self.Config → ℕ };

    /// The number of its channel at a proxy, 1 at an end.
    fn number(config: &Self::Config) -> u32
        ensures { result ≡ numbered config.now };

    /// A node before its first leg is up.
    ///
    /// Fails only for want of memory.
    fn make(alloc: Global, config: &Self::Config) -> Result<Self::State, AllocError>
        requires { can_make config.now }
        ensures { IfOk result (λ state. state ≡ first config.now) };

    /// What an event brings on the heap, the reply to it brings back.
    ghost hands_back: { HandsBack Self.reply };
}
