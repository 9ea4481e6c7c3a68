//! The run of a role over its outside.

ghost use Rattle.std.specs.Prelude.{◌≡◌, ℕ, length, slice_get, Some, IfOk, OnOk, OnErr};
ghost use Rattle.rh_io.specs.Counts.{Rose};
ghost use Rattle.rh_net.specs.Calls.{CountsFault};
ghost use Rattle.rh_relay.specs.Runs.{WentSo};
ghost use Rattle.rh_role_words.specs.Runs.{ClientRan, GainsTwo, IsLeft, RoleRan};

use crate::addresses::HostPort;
use crate::configs::Limits;
use crate::form::RoleForm;
use rh_http::Host;
use rh_io::NoMemory;
use rh_jobs::Spawner;
use rh_keepers::Plan;
use rh_legs::{NoGate, NodeEnd};
use rh_machines::{ClientNode, InProxyNode, Node, OutProxyNode, ServerNode};
use rh_net::{Clock, CookieFailed, Cookies, Net, Ready, ShutSink};
use rh_relay::{Outside, Ran, run_node};
use rh_rts::Cookie;
use std::alloc::Global;
use std::sync::{Arc, Wait};
use std::time;

// The cookies of a client's connection and of its group.
fn two_cookies<K: Cookies>(cookies: &mut K) -> Result<(Cookie, Cookie), CookieFailed>
    ensures came { IfOk result (λ two. GainsTwo (K.answered cookies.old) (K.answered cookies.new)
        two.0.0 two.1.0) }
    ensures ok { OnOk result (K.faults cookies.new ≡ K.faults cookies.old) }
    ensures err { OnErr result (Rose (K.faults cookies.old) (K.faults cookies.new)) }
{
    let connection = cookies.next()?;
    let group = cookies.next()?;
    Ok((Cookie(connection), Cookie(group)))
}

// The answer where a client got no cookies: nothing was run.
fn without_cookies<S: Drop, W: Drop, N: Drop, C: Drop, K: Drop>(
    alloc: Global,
    outside: Outside<S, W, N, C, K>,
) -> Result<Ran<S, W, N, C, K>, NoMemory>
    ensures { IfOk result (λ ran. IsLeft outside ran) }
{
    let Outside {
        input,
        output,
        net,
        clock,
        cookies,
    } = outside;
    let mut ends = Vec::new(alloc);
    ends.push(NodeEnd::CookieFault)?;
    Ok(Ran {
        ends,
        input: Some(input),
        output: Some(output),
        net,
        clock,
        cookies,
        unreached: None,
    })
}

/// What a role runs by: its runtime, where it takes memory from, and its numbers.
#[derive(Clone, Copy)]
pub struct Running<R: Copy> {
    pub rt: R,
    pub alloc: Global,
    pub limits: Limits,
}

// Runs the nodes of a role.
fn run_nodes<
    M: Node + Send + 'static,
    S: Ready + Send + Drop + 'static,
    W: ShutSink + Send + Drop + 'static,
    N: Net + Send + Drop + 'static,
    C: Clock + Send + Drop + 'static,
    K: Cookies + Send + Drop + 'static,
    P: Spawner,
    R: Wait + time::Clock + Copy + Send + Drop + 'static,
>(
    running: Running<R>,
    configs: &[M::Config],
    plan: &Plan,
    outside: Outside<S, W, N, C, K>,
    spawner: &mut P,
) -> Result<Ran<S, W, N, C, K>, NoMemory>
where
    M::State: Send + Drop + 'static,
    M::Config: 'static,
    N::In: Ready + Send + Drop + 'static,
    N::Out: Send + Drop + 'static,
    N::Way: Send + Drop + 'static,
    N::Came: 'static,
    requires configs { (at : ℕ) (config : M.Config) → slice_get configs.now at ≡ Some config
        → M.can_make config }
    ensures went { IfOk result (λ ran. WentSo (length configs.now) (outside.input, outside.output)
        (CountsFault (N.counts outside.net) (N.counts ran.net))
        (P.faults spawner.old, P.faults spawner.new) (P.ran spawner.old, P.ran spawner.new)
        ran.input ran.output ran.ends.items) }
{
    let Running { rt, alloc, .. } = running;
    let gate = Arc::new(alloc, NoGate)?;
    run_node::<M, S, W, N, C, K, P, NoGate, R>(rt, alloc, configs, plan, outside, spawner, gate)
}

// Runs a client, whose connection and group have the first two cookies.
fn run_client<
    S: Ready + Send + Drop + 'static,
    W: ShutSink + Send + Drop + 'static,
    N: Net + Send + Drop + 'static,
    C: Clock + Send + Drop + 'static,
    K: Cookies + Send + Drop + 'static,
    P: Spawner,
    R: Wait + time::Clock + Copy + Send + Drop + 'static,
>(
    running: Running<R>,
    server: HostPort,
    proxy_host: Host,
    plan: &Plan,
    outside: Outside<S, W, N, C, K>,
    spawner: &mut P,
) -> Result<Ran<S, W, N, C, K>, NoMemory>
where
    N::In: Ready + Send + Drop + 'static,
    N::Out: Send + Drop + 'static,
    N::Way: Send + Drop + 'static,
    N::Came: 'static,
    ensures ran { IfOk result (λ ran. ClientRan (record {
      counts = N.counts;
      faults = K.faults;
      answered = K.answered;
    }) (P.faults spawner.old, P.faults spawner.new) (P.ran spawner.old, P.ran spawner.new)
        outside ran) }
{
    let Running { alloc, limits, .. } = running;
    let Outside {
        input,
        output,
        net,
        clock,
        mut cookies,
    } = outside;
    match two_cookies(&mut cookies) {
        Ok(two) => {
            let config = limits.client(two, server, proxy_host);
            let outside = Outside {
                input,
                output,
                net,
                clock,
                cookies,
            };
            run_nodes::<ClientNode, S, W, N, C, K, P, R>(running, &[config], plan, outside, spawner)
        }
        Err(_) => {
            let outside = Outside {
                input,
                output,
                net,
                clock,
                cookies,
            };
            without_cookies(alloc, outside)
        }
    }
}

/// Runs a role over its outside, and answers how each of its nodes ended, with the outside.
///
/// What its nodes are made with is told by its numbers: `Limits::client`, with two cookies of the
/// outside and the host of the first in proxy, `Limits::server`, `Limits::in_proxies` and
/// `Limits::out_proxies`. Where they listen and connect is told by `RoleForm::plan`. Fails where
/// there is no memory, and the outside is lost then.
pub fn run_role<
    S: Ready + Send + Drop + 'static,
    W: ShutSink + Send + Drop + 'static,
    N: Net + Send + Drop + 'static,
    C: Clock + Send + Drop + 'static,
    K: Cookies + Send + Drop + 'static,
    P: Spawner,
    R: Wait + time::Clock + Copy + Send + Drop + 'static,
>(
    running: Running<R>,
    form: &RoleForm,
    outside: Outside<S, W, N, C, K>,
    spawner: &mut P,
) -> Result<Ran<S, W, N, C, K>, NoMemory>
where
    N::In: Ready + Send + Drop + 'static,
    N::Out: Send + Drop + 'static,
    N::Way: Send + Drop + 'static,
    N::Came: 'static,
    ensures ran { IfOk result (λ ran. RoleRan (record {
      counts = N.counts;
      faults = K.faults;
      answered = K.answered;
    }) (P.faults spawner.old, P.faults spawner.new) (P.ran spawner.old, P.ran spawner.new)
        outside ran form.now) }
{
    let Running { alloc, limits, .. } = running;
    let plan = form.plan(alloc)?;
    match form {
        RoleForm::Client { server, ins, .. } => {
            run_client(running, *server, ins.first.host, &plan, outside, spawner)
        }
        RoleForm::InProxy { count, .. } => {
            let configs = limits.in_proxies(alloc, *count)?;
            run_nodes::<InProxyNode, S, W, N, C, K, P, R>(
                running, &configs, &plan, outside, spawner,
            )
        }
        RoleForm::OutProxy { count, .. } => {
            let configs = limits.out_proxies(alloc, *count)?;
            run_nodes::<OutProxyNode, S, W, N, C, K, P, R>(
                running, &configs, &plan, outside, spawner,
            )
        }
        RoleForm::Server { .. } => {
            let configs = [limits.server()];
            run_nodes::<ServerNode, S, W, N, C, K, P, R>(running, &configs, &plan, outside, spawner)
        }
    }
}
