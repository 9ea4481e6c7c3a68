//! The program of the four roles: runs one over TCP, from standard input to standard output.
#![tactic(auto)]

use rh_io::{Sink, WriterSink, write_whole};
use rh_jobs::ThreadSpawner;
use rh_net::{Address, Ready, ShutSink};
use rh_relay::Outside;
use rh_role_words::{
    Limits, RoleForm, RoleStatus, Running, role_form_of, run_role, status_of_ends, write_address,
};
use rh_tcp::{RandomCookies, StdInput, SystemClock, TcpNet};
use std::io::ErrorKind;
use std::net::{self, TcpListener, TcpStream};
use std::process::ExitCode;
use std::random::RandomSource;
use std::sync::Wait;
use std::thread::Threads;
use std::{env, time};

/// What `--version` tells.
const VERSION: &str = "rh_roles 0.1.0\n";

/// What `--help` tells.
const HELP: &str =
    "rh_roles runs one of the four roles of RPC over HTTP version 2 (MS-RPCH), over TCP.

  rh_roles client <server> <ins> <outs>   asks for the server at this host:port, by way of in and of
                                          out proxies: 1 to 16 host:port, with commas between
  rh_roles inproxy <host:port> <count>    listens there for so many IN channels, 1 to 64
  rh_roles outproxy <host:port> <count>   listens there for so many OUT channels, 1 to 64
  rh_roles server <host:port>             listens there
  rh_roles --help                         writes this page
  rh_roles --version                      writes the name and the version

A client and a server give the PDUs that they read from standard input, and write those that they
take to standard output. A run ends when both inputs ended and all PDUs were taken.

A status other than 0 has its text on standard error:

  1  usage
  2  bad input <pdu>
  3  read fault
  4  write fault
  5  net fault
  6  spawn fault
  7  closed <cause>
  8  no memory
  10  cookie fault

Behind 'net fault' a second line tells where: 'at' and the address.
";

/// How the program ends, and where the net failed.
struct Ending {
    status: RoleStatus,
    at: Option<Address>,
}

impl From<RoleStatus> for Ending {
    fn from(status: RoleStatus) -> Ending {
        Ending { status, at: None }
    }
}

/// Runs a role over the system's sockets, clock and random source.
fn run<
    S: Ready + Send + Drop + 'static,
    W: ShutSink + Send + Drop + 'static,
    R: AllocGlobal
        + net::Net<Listener = TcpListener, Stream = TcpStream>
        + time::Clock
        + RandomSource
        + Threads
        + Wait
        + Copy
        + Send
        + Drop
        + 'static,
>(rt: R, form: &RoleForm, input: S, output: W) -> Ending {
    let alloc = rt.alloc();
    // No status tells of a clock that can't be read.
    let Ok(clock) = SystemClock::new(rt) else {
        return Ending::from(RoleStatus::NoMemory);
    };
    let outside = Outside {
        input,
        output,
        net: TcpNet::new(rt),
        clock,
        cookies: RandomCookies::new(rt),
    };
    let running = Running {
        rt,
        alloc,
        limits: Limits::by_default(),
    };
    let mut spawner = ThreadSpawner::new(alloc, rt);
    match run_role(running, form, outside, &mut spawner) {
        Ok(ran) => ending_of(status_of_ends(&ran.ends), ran.unreached),
        Err(_) => Ending::from(RoleStatus::NoMemory),
    }
}

/// How it ends where a run ended so, and its net failed there first.
fn ending_of(status: RoleStatus, unreached: Option<Address>) -> Ending {
    match status {
        RoleStatus::NetFault => Ending {
            status,
            at: unreached,
        },
        _ => Ending::from(status),
    }
}

/// Writes a text that the program tells of itself.
fn tell<W: Sink>(text: &str, output: &mut W) -> RoleStatus {
    match write_whole(output, text.as_bytes()) {
        Ok(()) => RoleStatus::Done,
        Err(_) => RoleStatus::WriteFault,
    }
}

/// The words behind the program's own name.
fn words_of(rt: &HostRuntime) -> Result<Vec<String>, RoleStatus> {
    let mut words = Vec::new(rt.alloc());
    match env::args(rt) {
        Ok(args) => {
            for word in args.skip(1) {
                if words.push(word).is_err() {
                    return Err(RoleStatus::NoMemory);
                }
            }
            Ok(words)
        }
        Err(error) if error.kind() == ErrorKind::InvalidData => Err(RoleStatus::Usage),
        Err(_) => Err(RoleStatus::NoMemory),
    }
}

fn main(rt: HostRuntime) -> ExitCode {
    let words = match words_of(&rt) {
        Ok(words) => words,
        Err(status) => return end(&rt, Ending::from(status)),
    };
    let mut output = WriterSink::new(rt.stdout());
    let ending = match words.as_slice() {
        [word] if word.as_str() == "--help" => Ending::from(tell(HELP, &mut output)),
        [word] if word.as_str() == "--version" => Ending::from(tell(VERSION, &mut output)),
        words => match role_form_of(rt.alloc(), words) {
            Ok(Some(form)) => {
                let input = StdInput::new(&rt, rt.alloc(), rt.stdin());
                run(rt, &form, input, output)
            }
            Ok(None) => Ending::from(RoleStatus::Usage),
            Err(_) => Ending::from(RoleStatus::NoMemory),
        },
    };
    end(&rt, ending)
}

// Tells a status but `Done` on standard error, and where the net failed; answers its exit status.
fn end(rt: &HostRuntime, ending: Ending) -> ExitCode {
    let Ending { status, at } = ending;
    if status != RoleStatus::Done {
        let mut text = String::new(rt.alloc());
        let _ = status.write(&mut text);
        let _ = eprintln!(rt; "{text}");
    }
    if let Some(at) = at {
        let mut text = String::new(rt.alloc());
        let _ = write_address(&at, &mut text);
        let _ = eprintln!(rt; "{text}");
    }
    ExitCode::from(status.number())
}
