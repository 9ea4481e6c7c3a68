//! The chain of the legs of a kind.

ghost use Rattle.std.specs.Prelude.{◌≡◌, List, ◌∷◌, IfOk};
ghost use Rattle.rh_audit.specs.Chains as chains;
ghost use Rattle.rh_audit.specs.Chains.{Leg, chain};
ghost use Rattle.rh_audit.specs.Links.{leg_of, legs_of};
ghost use Rattle.rh_audit.specs.Waiting.{IsSorted, Waits, waiting_for};

use crate::link::Link;
use rh_rts::{COOKIE_LEN, Cookie};
use std::alloc::{AllocError, Global};
use std::collections::{BTreeMap, VecDeque};

/// Legs that are not in the chain yet, by the cookie of the channel that each replaces.
#[derive(Drop)]
struct Waiting<'a> {
    links: BTreeMap<[u8; COOKIE_LEN], VecDeque<Link<'a>>>,
}

impl<'a> Waiting<'a> {
    ghost use Rattle.std.specs.Prelude.{◌≡◌, ◌++◌, [], ◌∷◌, ℕ, List, IfOk, OnOk, bytes_eq, false, if◌then◌else◌, option_to_list, None};
    ghost use Rattle.rh_audit.specs.Waiting.{waiting_for};

    /// No leg.
    fn new(alloc: Global) -> Waiting<'a>
        ensures { (cookie : List ℕ) → waiting_for result cookie ≡ [] }
    {
        Waiting {
            links: BTreeMap::new(alloc),
        }
    }

    /// Takes all legs that replace this channel.
    #[tactic(auto, using(crate::proofs::Queues::same_test))]
    fn take_out(&mut self, alloc: Global, cookie: Cookie) -> VecDeque<Link<'a>>
        ensures queue { result.items ≡ waiting_for self.old cookie.0 }
        ensures out { (other : List ℕ) → waiting_for self.new other
            ≡ (if bytes_eq cookie.0 other then [] else waiting_for self.old other) }
    {
        match self.links.remove(&cookie.0) {
            Some(queue) => queue,
            None => VecDeque::new(alloc),
        }
    }

    /// Lets these legs wait, in place of those that replace this channel.
    #[tactic(auto, using(crate::proofs::Queues::same_test))]
    fn put_back(&mut self, cookie: Cookie, queue: VecDeque<Link<'a>>) -> Result<(), AllocError>
        ensures { OnOk result ((other : List ℕ) → waiting_for self.new other
            ≡ (if bytes_eq cookie.0 other then queue.entry.items
            else waiting_for self.old other)) }
    {
        self.links.insert(cookie.0, queue)?;
        Ok(())
    }

    /// Adds a leg behind the others that replace the same channel.
    fn add(&mut self, alloc: Global, cookie: Cookie, link: Link<'a>) -> Result<(), AllocError>
        ensures { OnOk result ((other : List ℕ) → waiting_for self.new other
            ≡ (if bytes_eq cookie.0 other then waiting_for self.old other ++ link.entry ∷ []
            else waiting_for self.old other)) }
    {
        let mut queue = self.take_out(alloc, cookie);
        queue.push_back(link)?;
        self.put_back(cookie, queue)
    }

    /// Takes the first leg that replaces this channel.
    #[tactic(auto, using(crate::proofs::Queues::same_self))]
    fn take(&mut self, alloc: Global, cookie: Cookie) -> Result<Option<Link<'a>>, AllocError>
        ensures here { IfOk result (λ found. waiting_for self.old cookie.0
            ≡ option_to_list found ++ waiting_for self.new cookie.0) }
        ensures none { IfOk result (λ found. found ≡ None → waiting_for self.old cookie.0 ≡ []) }
        ensures others { OnOk result ((other : List ℕ) → bytes_eq cookie.0 other ≡ false
            → waiting_for self.new other ≡ waiting_for self.old other) }
    {
        let mut queue = self.take_out(alloc, cookie);
        let found = queue.pop_front();
        self.put_back(cookie, queue)?;
        Ok(found)
    }
}

/// The first leg that replaces none, and the legs that replace one.
#[derive(Drop)]
struct Sorted<'a> {
    start: Option<Link<'a>>,
    waiting: Waiting<'a>,
}

/// Sorts the legs of a kind by what they replace.
fn sort_out<'a>(alloc: Global, links: &[Link<'a>]) -> Result<Sorted<'a>, AllocError>
    ensures { IfOk result (λ sorted. IsSorted (legs_of links.now) sorted.start (waiting_for sorted.waiting)) }
{
    let mut start = None;
    let mut waiting = Waiting::new(alloc);
    for link in links {
        match link.predecessor {
            Some(cookie) => waiting.add(alloc, cookie, *link)?,
            None if start.is_none() => start = Some(*link),
            None => {}
        }
    }
    Ok(Sorted { start, waiting })
}

/// Goes on from a leg to the one that replaces it, at most so many times.
fn follow<'a>(
    alloc: Global,
    start: Link<'a>,
    mut waiting: Waiting<'a>,
    most: usize,
) -> Result<Vec<Link<'a>>, AllocError>
    ensures { IfOk result (λ found. (others : List Leg) → Waits (waiting_for waiting.entry) others
        → legs_of found.items
        ≡ leg_of start.entry ∷ chains.follow most start.entry.newest others) }
{
    let mut found = Vec::from_slice(alloc, &[start])?;
    let mut newest = start.newest;
    let mut left = most;
    'links: while left > 0 {
        let next = waiting.take(alloc, newest)?;
        match next {
            None => return Ok(found),
            Some(link) => {
                found.push(link)?;
                newest = link.newest;
                left -= 1;
            }
        }
    }
    Ok(found)
}

/// The chain of the legs of a kind, which come in the order of their tags.
///
/// Fails where there is no memory.
pub(crate) fn chain_of<'a>(alloc: Global, links: &[Link<'a>]) -> Result<Vec<Link<'a>>, AllocError>
    ensures { IfOk result (λ found. legs_of found.items ≡ chain (legs_of links.now)) }
{
    let sorted = sort_out(alloc, links)?;
    match sorted.start {
        None => Ok(Vec::new(alloc)),
        Some(start) => {
            let found = follow(alloc, start, sorted.waiting, links.len())?;
            Ok(found)
        }
    }
}
