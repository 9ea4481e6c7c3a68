//! Plays the lines of a script to one node at a time.

ghost use Rattle.std.specs.Prelude.{◌≡◌, IfOk};
ghost use Rattle.rh_play.specs.Players as seen;

use crate::node::Node;
use rh_line::Leg;
use rh_record::{Answer, Key};
use rh_rts::NO_COOKIE;
use rh_script::{Act, Naming, Part, Step, Words};
use rh_sig::Pipe;
use rh_text::Bytes;
use rh_told::Told;
use rh_world::{Roles, WorldConfig};
use std::alloc::{AllocError, Global};
use std::marker::Model;

/// The node that plays, where one began, the numbers of those that will begin, and whether packets
/// are named.
#[derive(Drop)]
pub struct Player {
    roles: Roles,
    naming: Naming,
    node: Option<Node>,
}

impl Model for Player {
    ghost Value = { seen.Player };

    ghost view = { λ p. record { config = p.roles; naming = p.naming; node = p.node } };
}

/// What an end answered, where the node is one.
fn told_end(answer: Option<Answer>) -> Told
    ensures { result ≡ seen.told_end answer }
{
    match answer {
        None => Told::None,
        Some(answer) => Told::End(answer),
    }
}

/// What is told of bytes that were drawn and put on that pipe.
fn told_drawn(naming: Naming, pipe: Option<Pipe>, leg: Leg, bytes: Bytes) -> Told
    ensures { result ≡ seen.told_drawn naming pipe leg bytes }
{
    match naming {
        Naming::On => Told::Named { leg, pipe, bytes },
        Naming::Off => Told::Drawn { leg, bytes },
    }
}

/// What a node does at a line of its own.
fn do_act(alloc: Global, node: &mut Node, act: Act) -> Result<Told, AllocError>
    ensures { IfOk result (λ told. (node.new, told) ≡ seen.acted node.old act) }
{
    Ok(match act {
        Act::Take => told_end(node.take(alloc)?),
        Act::Close => told_end(node.close()),
        Act::Recycle => told_end(node.recycle()),
        Act::State => Told::State(node.state()),
        Act::Channels => match node.channels() {
            None => Told::None,
            Some((inbound, outbound)) => Told::Channels(inbound, outbound),
        },
        Act::Target => match node.target() {
            None => Told::None,
            Some(target) => Told::Target(target),
        },
    })
}

/// What a node is told or asked.
fn do_step(alloc: Global, naming: Naming, node: &mut Node, step: &Step) -> Result<Told, AllocError>
    ensures { IfOk result (λ told. (node.new, told) ≡ seen.done naming node.old step.now) }
{
    match step {
        Step::Note | Step::Case { .. } | Step::Set { .. } | Step::Names(_) | Step::Begin(_) => {
            Ok(Told::Silent)
        }
        Step::Ask { ask, leg } => {
            let (ask, leg) = (*ask, *leg);
            let yes = node.ask(ask, leg);
            Ok(Told::Asked { ask, leg, yes })
        }
        Step::Up { leg, cookie } => {
            let leg = *leg;
            let yes = node.up(leg, cookie.unwrap_or(NO_COOKIE));
            Ok(Told::Up { leg, yes })
        }
        Step::Feed { cut, leg, bytes } => {
            let (cut, leg) = (*cut, *leg);
            let verdict = node.feed(cut, leg, bytes.as_slice());
            Ok(Told::Fed { cut, leg, verdict })
        }
        Step::Draw { leg, count } => {
            let leg = *leg;
            let pipe = node.put_on(leg.kind);
            let bytes = node.draw(alloc, leg, *count)?;
            Ok(told_drawn(naming, pipe, leg, bytes))
        }
        Step::Lose { loss, leg } => {
            let (loss, leg) = (*loss, *leg);
            let verdict = node.lose(loss, leg);
            Ok(Told::Lost { loss, leg, verdict })
        }
        Step::Tick { now } => {
            let now = *now;
            let verdict = node.tick(now);
            Ok(Told::Ticked { now, verdict })
        }
        Step::Give { pdu } => Ok(told_end(node.give(pdu.as_slice()))),
        Step::Act(act) => do_act(alloc, node, *act),
        Step::First { bytes } => match node.first(bytes.as_slice()) {
            None => Ok(Told::None),
            Some(kind) => Ok(Told::First(kind)),
        },
    }
}

impl Player {
    ghost use Rattle.std.specs.Prelude.{OnOk};

    /// No node, and the numbers that stand where no line sets them.
    pub fn new() -> Player
        ensures { result ≡ seen.first }
    {
        Player {
            roles: Roles::new(WorldConfig::roles()),
            naming: Naming::Off,
            node: None,
        }
    }

    /// A number of the nodes that begin behind it is set.
    fn set(&mut self, key: Key, value: u32)
        ensures { self.new ≡ seen.set self.old key value }
    {
        self.roles.set(key, value);
    }

    /// A node begins, and ends the one before.
    fn begin(&mut self, alloc: Global, part: Part) -> Result<(), AllocError>
        ensures { OnOk result (self.new ≡ seen.begun self.old part) }
    {
        let config = self.roles.config();
        self.node = Some(Node::new(alloc, part, &config)?);
        Ok(())
    }

    /// The node does what the line says, where one began.
    fn pass_on(&mut self, alloc: Global, step: &Step) -> Result<Told, AllocError>
        ensures { IfOk result (λ told. (self.new, told) ≡ seen.passed_on self.old step.now) }
    {
        match &mut self.node {
            None => Ok(Told::None),
            Some(node) => do_step(alloc, self.naming, node, step),
        }
    }

    /// Does what a line says, and answers it.
    ///
    /// Fails where there is no memory; then the player may only be dropped.
    pub fn step(&mut self, alloc: Global, step: &Step) -> Result<Told, AllocError>
        ensures { IfOk result (λ told. (self.new, told) ≡ seen.step self.old step.now) }
    {
        match step {
            Step::Note => Ok(Told::Silent),
            Step::Case { words } => Ok(Told::Case(Words::copy(alloc, words.as_slice())?)),
            Step::Set { key, value } => {
                self.set(*key, *value);
                Ok(Told::Silent)
            }
            Step::Names(naming) => {
                self.naming = *naming;
                Ok(Told::Silent)
            }
            Step::Begin(part) => {
                self.begin(alloc, *part)?;
                Ok(Told::Begun(*part))
            }
            _ => self.pass_on(alloc, step),
        }
    }
}
