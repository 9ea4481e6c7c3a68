//! Channels that are replaced while calls run.

use rh_http::Host;
use rh_io::{MemSink, MemSource, NoMemory};
use rh_jobs::ThreadSpawner;
use rh_net::{Address, Net, Way};
use rh_relay::{Outside, Ran};
use rh_role_words::*;
use rh_tcp::{RandomCookies, SystemClock, TcpNet};
use std::alloc::Global;
use std::net::{self as sockets, TcpListener, TcpStream};
use std::random::RandomSource;
use std::sync::Wait;
use std::test::*;
use std::thread::{self, Threads};
use std::time::{self, Duration};

const HOST: &[u8] = b"127.0.0.1";

// How many PDUs go each way.
const COUNT: u8 = 200;

const LENGTH: usize = 8000;

// More channels than the PDUs of one way need, where a channel has the least lifetime.
const CHANNELS: u32 = 40;

// The least legs that an end has then: the PDUs of a way fill twelve lifetimes, and begin one more.
const LEGS: u64 = 26;

// The least lifetime of a channel; all else as in the program.
const LIMITS: Limits = Limits {
    window: 65_536,
    lifetime: 131_072,
    timeout: 120_000,
    keepalive: 300_000,
};

// What came of an end: its status, its output, and how many legs it had.
#[derive(Drop)]
struct Outcome {
    status: RoleStatus,
    output: MemSink,
    legs: u64,
}

// The input of an end: the calls from 0 on, of this context.
fn pdus(alloc: Global, context: u8) -> Result<Vec<u8>, NoMemory> {
    let mut bytes = Vec::new(alloc);
    for call in 0..COUNT {
        let header = [
            5, 0, 0, 3, 16, 0, 0, 0, 0x40, 0x1f, 0, 0, call, context, 0, 0,
        ];
        bytes.extend_from_slice(&header)?;
        bytes.extend_from_slice(&[call; LENGTH - 16])?;
    }
    Ok(bytes)
}

// Runs a role over loopback, from these bytes to memory; `None` where there is none.
fn run<
    R: AllocGlobal
        + sockets::Net<Listener = TcpListener, Stream = TcpStream>
        + time::Clock
        + RandomSource
        + Threads
        + Wait
        + Copy
        + Send
        + Drop
        + 'static,
>(rt: R, form: &RoleForm, input: Vec<u8>) -> Option<Outcome> {
    let alloc = rt.alloc();
    let room = usize::from(COUNT) * LENGTH;
    let outside = Outside {
        input: MemSource::new(input, Vec::new(alloc)),
        output: MemSink::new(alloc, room, Vec::new(alloc)).ok()?,
        net: TcpNet::new(rt),
        clock: SystemClock::new(rt).ok()?,
        cookies: RandomCookies::new(rt),
    };
    let running = Running {
        rt,
        alloc,
        limits: LIMITS,
    };
    let mut spawner = ThreadSpawner::new(alloc, rt);
    let Ok(
        Ran {
            ends,
            output,
            net,
            ..
        },
    ) = run_role(running, form, outside, &mut spawner)
    else {
        return None;
    };
    Some(Outcome {
        status: status_of_ends(&ends),
        output: output?,
        legs: net.counts().given,
    })
}

// A port at which nobody listens.
fn place<R: sockets::Net<Listener = TcpListener, Stream = TcpStream> + Copy>(
    rt: R,
) -> Option<HostPort> {
    let mut net = TcpNet::new(rt);
    net.listen(&Address::new(HOST, 0)?).ok()?;
    let port = net.port()?;
    let host = Host::new(HOST).ok()?;
    if port == 0 {
        return None;
    }
    Some(HostPort { host, port })
}

// Whether somebody listens there, in the end. Who calls says nothing, and has no channel.
fn is_there<R: sockets::Net<Listener = TcpListener, Stream = TcpStream> + time::Clock + Copy>(
    rt: R,
    at: &HostPort,
) -> bool {
    let mut net = TcpNet::new(rt);
    for _ in 0..500 {
        let Ok(mut way) = net.way() else {
            return false;
        };
        let came = way.connect(&at.address());
        if net.gives(came).is_ok() {
            return true;
        }
        thread::sleep(&rt, Duration::from_millis(20));
    }
    false
}

fn only(alloc: Global, first: HostPort) -> HostPorts {
    HostPorts {
        first,
        more: Vec::new(alloc),
    }
}

#[test]
fn all_pdus_come_in_order_while_channels_are_replaced(rt: HostRuntime) -> Result<(), Fail> {
    let alloc = rt.alloc();
    let at = place(rt).expect(&rt, "the server's port");
    let ins = place(rt).expect(&rt, "the in proxy's port");
    let outs = place(rt).expect(&rt, "the out proxy's port");
    let (up, down) = (pdus(alloc, 1)?, pdus(alloc, 2)?);
    let (given_up, given_down) = (up.clone()?, down.clone()?);
    // How many channels come is a matter of moments, so the proxies wait for more, and are cut off.
    let count = CHANNELS;
    let in_proxy = RoleForm::InProxy { at: ins, count };
    let out_proxy = RoleForm::OutProxy { at: outs, count };
    let _ = thread::spawn(&rt, move || run(rt, &in_proxy, Vec::new(alloc)))?;
    let _ = thread::spawn(&rt, move || run(rt, &out_proxy, Vec::new(alloc)))?;
    let server = thread::spawn(&rt, move || run(rt, &RoleForm::Server { at }, given_down))?;
    let are_there = is_there(rt, &at) && is_there(rt, &ins) && is_there(rt, &outs);
    assert!(rt; are_there);
    let client = RoleForm::Client {
        server: at,
        ins: only(alloc, ins),
        outs: only(alloc, outs),
    };
    let client = run(rt, &client, given_up).expect(&rt, "the client's run");
    let server = server.join(&rt).expect(&rt, "the server's run");
    assert_eq!(rt;
        (client.status, server.status),
        (RoleStatus::Done, RoleStatus::Done)
    );
    assert!(rt; server.output.written() == up.as_slice());
    assert!(rt; client.output.written() == down.as_slice());
    assert!(rt; LEGS <= client.legs, "{}", client.legs);
    Ok(())
}
