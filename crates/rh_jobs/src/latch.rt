//! Where started threads wait for one decision: all jobs begin, or all go back.
//!
//! Each of the two decisions has a ledger. A thread that sees a decision enters 1 for its share of
//! that ledger, and hands this witness in with its result. Whoever decides closes the other ledger
//! while its sum is 0, and so knows that no thread has a witness of what wasn't decided.

ghost use Rattle.std.specs.Prelude.{◌≡◌, ◌+◌, ◌<◌};

use std::sync::ledger::{Blank, Book, Ledger, Share, Total};
use std::sync::{Condvar, Mutex, Wait};

/// The right to an entry in either ledger.
#[derive(Drop)]
pub struct Pass<Go: Ledger, Off: Ledger> {
    go: Share<Go>,
    off: Share<Off>,
    ghost go_part: { 0 < go.parts },
    ghost off_part: { 0 < off.parts },
}

/// Shows that a thread saw the decision whose ledger is `L`.
#[derive(Drop)]
pub struct Witness<L: Ledger> {
    share: Share<L>,
    ghost made: { 0 < share.amount },
}

/// Shows that no thread sees the decision whose ledger is `L`.
#[derive(Drop)]
pub struct Never<L: Ledger> {
    total: Total<L>,
    ghost unseen: { total.amount ≡ 0 },
}

impl<L: Ledger> Never<L> {
    /// Is given no witness of it.
    pub fn rules_out(&self, witness: Witness<L>)
        ensures { ⊥ }
    {
        let Witness { mut share } = witness;
        self.total.audit(&mut share);
    }
}

fn witnessed<L: Ledger>(book: &mut Book<L>, share: Share<L>) -> Witness<L>
    requires { 0 < share.parts }
{
    let mut share = share;
    book.add(&mut share, 1);
    Witness { share }
}

/// The right to decide, and the passes that aren't handed out.
#[derive(Drop)]
pub struct Undecided<Go: Ledger, Off: Ledger> {
    go: Book<Go>,
    off: Book<Off>,
    go_passes: Share<Go>,
    off_passes: Share<Off>,
    ghost unseen: { (go.total ≡ 0) × (off.total ≡ 0) },
    ghost unseen_passes: { (go_passes.amount ≡ 0) × (off_passes.amount ≡ 0) },
    ghost paired: { go_passes.parts ≡ off_passes.parts },
}

impl<Go: Ledger, Off: Ledger> Undecided<Go, Off> {
    /// Opens both ledgers, with a pass for each of their parts.
    pub fn new(go: Blank, off: Blank) -> Undecided<Go, Off>
        requires go { (go.name ≡ Go.name) × (go.parts ≡ Go.parts) }
        requires off { (off.name ≡ Off.name) × (off.parts ≡ Off.parts) }
        requires paired { go.parts ≡ off.parts }
        ensures { result.go_passes.parts ≡ go.parts }
    {
        let (go, go_passes) = go.open::<Go>();
        let (off, off_passes) = off.open::<Off>();
        Undecided {
            go,
            off,
            go_passes,
            off_passes,
        }
    }

    /// Hands out a pass.
    pub fn pass(&mut self) -> Pass<Go, Off>
        requires { 0 < self.old.go_passes.parts }
        ensures { self.new.go_passes.parts + 1 ≡ self.old.go_passes.parts }
    {
        let go = self.go_passes.split_off(1, 0);
        let off = self.off_passes.split_off(1, 0);
        Pass { go, off }
    }

    // The books of both decisions, in which nothing was entered.
    fn books(self) -> (Book<Go>, Book<Off>)
        ensures { (result.0.total ≡ 0) × (result.1.total ≡ 0) }
    {
        let Undecided {
            go,
            off,
            go_passes: _,
            off_passes: _,
        } = self;
        (go, off)
    }
}

/// A decision, and the book for the entries of those that see it.
#[derive(Drop)]
enum Decision<Go: Ledger, Off: Ledger> {
    Open,
    Begin(Book<Go>),
    CallOff(Book<Off>),
}

/// What a thread saw, with what it brought.
#[derive(Drop)]
pub enum Decided<T, Go: Ledger, Off: Ledger> {
    Begin(T, Witness<Go>),
    CallOff(T, Witness<Off>),
}

/// Where started threads wait for the decision.
#[derive(Drop)]
pub struct Latch<Go: Ledger, Off: Ledger> {
    decision: Mutex<Decision<Go, Off>>,
    decided: Condvar,
}

impl<Go: Ledger, Off: Ledger> Latch<Go, Off> {
    ghost use Rattle.rh_jobs.specs.Workers.{brought};

    pub fn new() -> Latch<Go, Off> {
        Latch {
            decision: Mutex::new(Decision::Open),
            decided: Condvar::new(),
        }
    }

    /// Lets the jobs begin, once every pass is handed out.
    pub fn begin(&self, rt: &impl Wait, undecided: Undecided<Go, Off>) -> Never<Off>
        requires { undecided.go_passes.parts ≡ 0 }
    {
        let (go, off) = undecided.books();
        self.decide(rt, Decision::Begin(go));
        Never { total: off.close() }
    }

    /// Sends the jobs back.
    pub fn call_off(&self, rt: &impl Wait, undecided: Undecided<Go, Off>) -> Never<Go> {
        let (go, off) = undecided.books();
        self.decide(rt, Decision::CallOff(off));
        Never { total: go.close() }
    }

    fn decide(&self, rt: &impl Wait, decision: Decision<Go, Off>) {
        *self.decision.lock(rt) = decision;
        self.decided.notify_all();
    }

    /// Waits for the decision, and enters that it was seen.
    ///
    /// A thread brings its job here. Nothing is known of the type, so nothing can begin it.
    pub fn wait<T>(&self, rt: &impl Wait, pass: Pass<Go, Off>, value: T) -> Decided<T, Go, Off>
        ensures { brought result ≡ value }
    {
        let Pass { go, off } = pass;
        let mut decision = self
            .decided
            .wait_while(rt, self.decision.lock(rt), |decision| {
                matches!(decision, Decision::Open)
            });
        match &mut *decision {
            Decision::Begin(book) => Decided::Begin(value, witnessed(book, go)),
            Decision::CallOff(book) => Decided::CallOff(value, witnessed(book, off)),
            Decision::Open => unreachable!(),
        }
    }
}
