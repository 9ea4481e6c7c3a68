//! The nodes that a line closed.

ghost use Rattle.std.specs.Prelude.{◌≡◌, ◌≤◌, length, OnOk};
ghost use Rattle.rh_text.specs.Writing.{Writes};
ghost use Rattle.rh_company.specs.Closings as seen;

use rh_line::Cause;
use rh_record::{Answer, Report, Who};
use std::alloc::{AllocError, Global};
use std::marker::Model;

/// A node that closed, and why.
#[derive(Clone, Copy)]
pub struct Closing {
    pub who: Who,
    pub cause: Cause,
}

/// The nodes that closed since they were told last, in the order in which nodes are told the
/// moment: the client, the server, the in proxies and the out proxies, the lower number first.
#[derive(Drop)]
pub struct Closings {
    list: Vec<Closing>,
}

impl Model for Closings {
    ghost use Rattle.std.specs.Prelude.{List};
    ghost use Rattle.rh_company.specs.declared.closing.Closing.{Closing};

    ghost Value = { List Closing };

    ghost view = { λ a. a.list.items };
}

/// The place of a kind of node among the kinds.
fn rank(who: Who) -> u8
    ensures { result ≡ seen.rank who }
{
    match who {
        Who::Client => 0,
        Who::Server => 1,
        Who::In(_) => 2,
        Who::Out(_) => 3,
    }
}

/// The number of a proxy; 0 of an end.
fn number(who: Who) -> u32
    ensures { result ≡ seen.number who }
{
    match who {
        Who::Client | Who::Server => 0,
        Who::In(number) | Who::Out(number) => number,
    }
}

/// Whether a node is told before another one.
fn is_ahead(a: Who, b: Who) -> bool
    ensures { result ≡ seen.is_ahead a b }
{
    rank(a) < rank(b) || (rank(a) == rank(b) && number(a) < number(b))
}

/// The place at which a node stands in the order.
fn place(who: Who, list: &[Closing]) -> usize
    ensures place { result ≡ seen.place who list.now }
    ensures within { result ≤ length list.now }
{
    for at in 0..list.len() {
        if is_ahead(who, list[at].who) {
            return at;
        }
    }
    list.len()
}

/// Adds a line for each node.
fn push_lines(list: &[Closing], report: &mut Report) -> Result<(), AllocError>
    ensures { Writes (seen.lines list.now) result report.old report.new }
{
    for at in 0..list.len() {
        let Closing { who, cause } = list[at];
        report.push(Answer::NodeClosed { who, cause })?;
    }
    Ok(())
}

impl Closings {
    ghost use Rattle.std.specs.Prelude.{[]};

    /// None closed.
    pub fn new(alloc: Global) -> Closings
        ensures { result ≡ [] }
    {
        Closings {
            list: Vec::new(alloc),
        }
    }

    /// Notes a node, where it closed. Fails where there is no memory.
    pub fn note(&mut self, who: Who, closed: Option<Cause>) -> Result<(), AllocError>
        ensures { OnOk result (self.new ≡ seen.noted self.old who closed) }
    {
        if let Some(cause) = closed {
            let at = place(who, &self.list);
            self.list.insert(at, Closing { who, cause })?;
        }
        Ok(())
    }

    /// Adds a line for each node to the report. Fails where there is no memory; a front of these
    /// lines may be added then.
    pub fn tell(&self, report: &mut Report) -> Result<(), AllocError>
        ensures { Writes (seen.lines self.now) result report.old report.new }
    {
        push_lines(&self.list, report)
    }

    /// Forgets the nodes.
    pub fn clear(&mut self)
        ensures { self.new ≡ [] }
    {
        self.list.clear();
    }
}
