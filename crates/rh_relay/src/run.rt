//! Nodes that run over legs.

ghost use Rattle.std.specs.Prelude.{◌≡◌, ℕ, ◌<◌, ◌*◌, ◌≤◌, ◌⊎◌, ◌∷◌, length, slice_get, vec_len, Some, None, IfOk, IfSome};
ghost use Rattle.std.specs.Vec.Iter.{into_iter_items};
ghost use Rattle.rh_net.specs.Calls.{CountsFault};
ghost use Rattle.rh_io.specs.Counts.{Rose};
ghost use Rattle.rh_jobs.specs.Counts.{raised};
ghost use Rattle.rh_legs.specs.declared.end.NodeEnd.TheVariants.{SpawnFault};
ghost use Rattle.rh_relay.specs.Runs.{AllEnd, WentSo};

use crate::answer::Done;
use crate::gathering::Back;
use crate::making::Shared;
use crate::outside::Outside;
use crate::work::Work;
use rh_actors::Actor;
use rh_io::NoMemory;
use rh_jobs::{SpawnRefused, Spawner};
use rh_keepers::{Books, Desk, Plan, Queue};
use rh_legs::{Gate, NodeEnd};
use rh_machines::{Node, Role};
use rh_net::{Address, Clock, Cookies, Net, Ready, ShutSink};
use std::alloc::Global;
use std::sync::{Arc, Wait};
use std::time;
use std::vec::IntoIter;

/// How a run ended, and its outside. The streams are there, but where jobs that had them were not
/// run.
#[derive(Drop)]
pub struct Ran<S: Drop, W: Drop, N: Drop, C: Drop, K: Drop> {
    /// How each node ended, in the order of the configurations.
    pub ends: Vec<NodeEnd>,
    pub input: Option<S>,
    pub output: Option<W>,
    pub net: N,
    pub clock: C,
    pub cookies: K,
    /// The first address at which the net failed: it could not be connected or listened at, or
    /// a caller could not be had. Of several nodes it is that of the first one which has any.
    pub unreached: Option<Address>,
}

// The nodes of a run, before it: their jobs, who gathers each one's end, and the streams that no
// job has.
struct Nodes<
    M: Node,
    S: Ready + Drop,
    W: ShutSink + Drop,
    N: Net + Drop,
    C: Clock + Drop,
    K: Cookies + Drop,
    G: Gate + Drop,
    R: Wait + Drop,
>
where
    M::State: Drop,
    N::In: Drop,
    N::Out: Drop,
    N::Way: Drop,
{
    jobs: Vec<Work<M, S, W, N, C, K, G, R>>,
    actors: Vec<Actor<M>>,
    streams: Option<(S, W)>,
}

// Whether a role has an input and an output.
fn is_end(role: Role) -> bool {
    match role {
        Role::Client | Role::Server => true,
        Role::InProxy | Role::OutProxy => false,
    }
}

// Makes a node for each configuration, with a way each. The first one of an end has the streams.
fn make_nodes<
    M: Node,
    S: Ready + Drop,
    W: ShutSink + Drop,
    N: Net + Drop,
    C: Clock + Drop,
    K: Cookies + Drop,
    G: Gate + Drop,
    R: Wait + Copy + Drop,
>(
    shared: &Shared<N, C, K, G, R>,
    configs: &[M::Config],
    plan: &Plan,
    ways: Vec<N::Way>,
    streams: (S, W),
) -> Result<Nodes<M, S, W, N, C, K, G, R>, NoMemory>
where
    M::State: Drop,
    N::In: Drop,
    N::Out: Drop,
    N::Way: Drop,
    requires configs { (at : ℕ) (config : M.Config) → slice_get configs.now at ≡ Some config
        → M.can_make config }
    requires ways { vec_len ways ≡ length configs.now }
    ensures nodes { IfOk result (λ nodes. vec_len nodes.actors ≡ length configs.now) }
    ensures jobs { IfOk result (λ nodes. 5 * vec_len nodes.actors ≤ vec_len nodes.jobs) }
{
    let mut streams = Some(streams);
    let mut jobs = Vec::new(shared.alloc);
    let mut actors = Vec::new(shared.alloc);
    let mut ways = ways.into_iter();
    for at in 0..configs.len() {
        let theirs = if is_end(M::ROLE) {
            streams.take()
        } else {
            None
        };
        let config = &configs[at];
        let way = next_way(&mut ways);
        let actor = shared.add_node::<M, S, W>(&mut jobs, at, config, plan, way, theirs)?;
        actors.push(actor)?;
    }
    Ok(Nodes {
        jobs,
        actors,
        streams,
    })
}

// The next way.
fn next_way<T: Drop>(ways: &mut IntoIter<T, Global>) -> T
    requires { 1 ≤ length (into_iter_items ways.old) }
    ensures { into_iter_items ways.old ≡ result ∷ into_iter_items ways.new }
{
    let Some(way) = ways.next() else {
        unreachable!()
    };
    way
}

// How each node ended, by its machine and by its jobs. What these had of the outside is handed
// back.
fn gather<M: Node, S: Ready + Drop, W: ShutSink + Drop, N: Net + Drop, R: Wait>(
    rt: &R,
    alloc: Global,
    actors: Vec<Actor<M>>,
    dones: Vec<Done<M, S, W, N::In, N::Out>>,
    back: &mut Back<S, W, N>,
) -> Result<Vec<NodeEnd>, NoMemory>
where
    M::State: Drop,
    N::In: Drop,
    N::Out: Drop,
    ensures { IfOk result (λ ends. vec_len ends ≡ vec_len actors) }
{
    let mut ends = ends_of(rt, alloc, actors)?;
    for done in dones {
        let Done { node, end, had, .. } = done;
        tell(&mut ends, node, end);
        back.take(had);
    }
    Ok(ends)
}

// Tells how a job of a node ended.
fn tell(ends: &mut Vec<NodeEnd>, node: usize, end: NodeEnd)
    ensures { vec_len ends.new ≡ vec_len ends.old }
{
    if node >= ends.len() {
        return;
    }
    ends[node] = ends[node].or(end);
}

// How the machines of nodes ended.
fn ends_of<M: Node, R: Wait>(
    rt: &R,
    alloc: Global,
    actors: Vec<Actor<M>>,
) -> Result<Vec<NodeEnd>, NoMemory>
where
    M::State: Drop,
    ensures { IfOk result (λ ends. vec_len ends ≡ vec_len actors) }
{
    let mut ends = Vec::new(alloc);
    let mut actors = actors;
    for at in 0..actors.len() {
        ends.push(actors[at].end(rt))?;
    }
    Ok(ends)
}

// The same end for so many nodes.
fn all_end(alloc: Global, count: usize, end: NodeEnd) -> Result<Vec<NodeEnd>, NoMemory>
    ensures { IfOk result (λ ends. AllEnd end count ends.items) }
{
    let mut ends = Vec::new(alloc);
    for at in 0..count {
        ends.push(end)?;
    }
    Ok(ends)
}

// Runs the nodes, and gathers how they ended.
fn run_nodes<
    M: Node + Send + 'static,
    S: Ready + Send + Drop + 'static,
    W: ShutSink + Send + Drop + 'static,
    N: Net + Send + Drop + 'static,
    C: Clock + Send + Drop + 'static,
    K: Cookies + Send + Drop + 'static,
    P: Spawner,
    G: Gate + Send + Sync + Drop + 'static,
    R: Wait + time::Clock + Copy + Send + Drop + 'static,
>(
    shared: Shared<N, C, K, G, R>,
    nodes: Nodes<M, S, W, N, C, K, G, R>,
    spawner: &mut P,
) -> Result<Ran<S, W, N, C, K>, NoMemory>
where
    M::State: Send + Drop + 'static,
    M::Config: 'static,
    N::In: Ready + Send + Drop + 'static,
    N::Out: Send + Drop + 'static,
    N::Way: Send + Drop + 'static,
    N::Came: 'static,
    ensures ended { IfOk result (λ ran. (AllEnd SpawnFault (vec_len nodes.actors) ran.ends.items
        × Rose (P.faults spawner.old) (P.faults spawner.new) × (P.ran spawner.new ≡ P.ran spawner.old))
        ⊎ ((length ran.ends.items ≡ vec_len nodes.actors)
        × (P.ran spawner.new ≡ raised (P.ran spawner.old) (vec_len nodes.jobs)))) }
{
    let Shared {
        rt,
        alloc,
        desk,
        ..
    } = shared;
    let Nodes {
        jobs,
        actors,
        streams,
    } = nodes;
    match spawner.all(jobs) {
        Ok(dones) => finish(&rt, alloc, desk, actors, dones, streams),
        Err((SpawnRefused::Failed, jobs)) => {
            drop(jobs);
            refused(&rt, alloc, desk, actors.len())
        }
        Err((SpawnRefused::NoMemory, _)) => Err(NoMemory),
    }
}

// The outside of nodes whose jobs were not run.
fn refused<S: Drop, W: Drop, N: Net + Drop, C: Clock + Drop, K: Cookies + Drop, R: Wait>(
    rt: &R,
    alloc: Global,
    desk: Desk<N, C, K>,
    count: usize,
) -> Result<Ran<S, W, N, C, K>, NoMemory>
    ensures { IfOk result (λ ran. AllEnd SpawnFault count ran.ends.items) }
{
    let Books {
        net,
        clock,
        cookies,
    } = desk.close(rt);
    Ok(Ran {
        ends: all_end(alloc, count, NodeEnd::SpawnFault)?,
        input: None,
        output: None,
        net,
        clock,
        cookies,
        unreached: None,
    })
}

// Gathers what the jobs answered.
fn finish<
    M: Node,
    S: Ready + Drop,
    W: ShutSink + Drop,
    N: Net + Drop,
    C: Clock + Drop,
    K: Cookies + Drop,
    R: Wait,
>(
    rt: &R,
    alloc: Global,
    desk: Desk<N, C, K>,
    actors: Vec<Actor<M>>,
    dones: Vec<Done<M, S, W, N::In, N::Out>>,
    streams: Option<(S, W)>,
) -> Result<Ran<S, W, N, C, K>, NoMemory>
where
    M::State: Drop,
    N::In: Drop,
    N::Out: Drop,
    ensures { IfOk result (λ ran. length ran.ends.items ≡ vec_len actors) }
{
    let Books {
        net,
        clock,
        cookies,
    } = desk.close(rt);
    let (input, output) = match streams {
        Some((input, output)) => (Some(input), Some(output)),
        None => (None, None),
    };
    let mut back = Back {
        net,
        input,
        output,
        unreached: None,
    };
    let ends = gather(rt, alloc, actors, dones, &mut back)?;
    let Back {
        net,
        input,
        output,
        unreached,
    } = back;
    Ok(Ran {
        ends,
        input,
        output,
        net,
        clock,
        cookies,
        unreached,
    })
}

/// Runs a node for each configuration, all at the same time, and answers how they ended, in that
/// order, with the outside.
///
/// A node has a keeper, two jobs for each slot and, at an end, a giver and a taker, each on a thread
/// of its own. `gate` is passed by what reads and writes legs. Fails where there is no memory, and
/// the outside is lost then.
pub fn run_node<
    M: Node + Send + 'static,
    S: Ready + Send + Drop + 'static,
    W: ShutSink + Send + Drop + 'static,
    N: Net + Send + Drop + 'static,
    C: Clock + Send + Drop + 'static,
    K: Cookies + Send + Drop + 'static,
    P: Spawner,
    G: Gate + Send + Sync + Drop + 'static,
    R: Wait + time::Clock + Copy + Send + Drop + 'static,
>(
    rt: R,
    alloc: Global,
    configs: &[M::Config],
    plan: &Plan,
    outside: Outside<S, W, N, C, K>,
    spawner: &mut P,
    gate: Arc<G, Global>,
) -> Result<Ran<S, W, N, C, K>, NoMemory>
where
    M::State: Send + Drop + 'static,
    M::Config: 'static,
    N::In: Ready + Send + Drop + 'static,
    N::Out: Send + Drop + 'static,
    N::Way: Send + Drop + 'static,
    N::Came: 'static,
    requires configs { (at : ℕ) (config : M.Config) → slice_get configs.now at ≡ Some config
        → M.can_make config }
    ensures went { IfOk result (λ ran. WentSo (length configs.now) (outside.input, outside.output)
        (CountsFault (N.counts outside.net) (N.counts ran.net))
        (P.faults spawner.old, P.faults spawner.new) (P.ran spawner.old, P.ran spawner.new)
        ran.input ran.output ran.ends.items) }
{
    let Outside {
        input,
        output,
        mut net,
        clock,
        cookies,
    } = outside;
    let Some(ways) = ways_of(alloc, &mut net, plan, configs.len())? else {
        return Ok(Ran {
            ends: all_end(alloc, configs.len(), NodeEnd::NetFault)?,
            input: Some(input),
            output: Some(output),
            net,
            clock,
            cookies,
            unreached: plan.at,
        });
    };
    let books = Books {
        net,
        clock,
        cookies,
    };
    let shared = Shared {
        rt,
        alloc,
        desk: Desk::new(alloc, books)?,
        queue: Arc::new(alloc, Queue::new(configs.len() as u64))?,
        gate,
    };
    let streams = (input, output);
    let nodes = make_nodes::<M, S, W, N, C, K, G, R>(&shared, configs, plan, ways, streams)?;
    run_nodes(shared, nodes, spawner)
}

// Has the net listen where the plan says so, and takes a way for each node; `None` where the net
// failed.
fn ways_of<N: Net>(
    alloc: Global,
    net: &mut N,
    plan: &Plan,
    count: usize,
) -> Result<Option<Vec<N::Way>>, NoMemory>
    ensures failed { IfOk result (λ ways.
        ways ≡ None → CountsFault (N.counts net.old) (N.counts net.new)) }
    ensures count { IfOk result (λ ways. IfSome ways (λ ways. vec_len ways ≡ count)) }
{
    if let Some(at) = &plan.at {
        if net.listen(at).is_err() {
            return Ok(None);
        }
    }
    let mut ways = Vec::new(alloc);
    for at in 0..count {
        let Ok(way) = net.way() else {
            return Ok(None);
        };
        ways.push(way)?;
    }
    Ok(Some(ways))
}
