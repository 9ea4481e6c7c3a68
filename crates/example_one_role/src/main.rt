//! A client alone, over no sockets: what it puts on its legs is looked at, and what comes to it are
//! bytes of this program. It opens, a PDU goes each way, and a packet too many closes it.
#![tactic(auto)]

use rh_client::{Client, ClientConfig};
use rh_http::Host;
use rh_line::{Leg, LegKind, State, Take, Verdict, write_cause};
use rh_rts::Cookie;
use std::alloc::Global;
use std::io;

const CO: Leg = Leg {
    kind: LegKind::ClientOut,
    number: 1,
};

const CI: Leg = Leg {
    kind: LegKind::ClientIn,
    number: 1,
};

/// What an out proxy answers to the request for an OUT channel (MS-RPCH 2.1.2).
const HEAD: &[u8] = b"HTTP/1.1 200 Success\r\nContent-Length: 1073741824\r\n\r\n";
/// ConnectionTimeout 120000 (MS-RPCH 2.2.4.4).
const CONN_A3: [u8; 28] = [
    5, 0, 20, 3, 16, 0, 0, 0, 28, 0, 0, 0, 0, 0, 0, 0, 0, 0, 1, 0, 2, 0, 0, 0, 0xc0, 0xd4, 1, 0,
];
/// Version 1, ReceiveWindowSize 65536 and ConnectionTimeout 120000 (MS-RPCH 2.2.4.9).
const CONN_C2: [u8; 44] = [
    5, 0, 20, 3, 16, 0, 0, 0, 44, 0, 0, 0, 0, 0, 0, 0, 0, 0, 3, 0, 6, 0, 0, 0, 1, 0, 0, 0, 0, 0, 0,
    0, 0, 0, 1, 0, 2, 0, 0, 0, 0xc0, 0xd4, 1, 0,
];
/// A request and its response, of the call 1 and without a stub (C706 12.6.4).
const REQUEST: [u8; 24] = [
    5, 0, 0, 3, 16, 0, 0, 0, 24, 0, 0, 0, 1, 0, 0, 0, 0, 0, 0, 0, 0, 0, 0, 0,
];

const RESPONSE: [u8; 24] = [
    5, 0, 2, 3, 16, 0, 0, 0, 24, 0, 0, 0, 1, 0, 0, 0, 0, 0, 0, 0, 0, 0, 0, 0,
];

fn made_client(alloc: Global) -> Option<Client> {
    let (server, proxy) = (Host::new(b"server").ok()?, Host::new(b"proxy").ok()?);
    let config = ClientConfig::new(Cookie([1; 16]), Cookie([2; 16]), server, 593, proxy);
    Client::new(alloc, config).ok()
}

/// A state in a word.
fn state_word(state: State) -> &'static str {
    match state {
        State::Opening => "opening",
        State::Open => "open",
        State::Ended => "ended",
        State::Closed(_) => "closed",
    }
}

/// Both legs are connected, and what the client puts there goes nowhere. How many bytes that are.
fn connect(client: &mut Client) -> usize {
    let mut room = [0; 4096];
    client.up(CO, Cookie([3; 16]));
    let on_co = client.draw(CO, &mut room);
    client.up(CI, Cookie([4; 16]));
    let on_ci = client.draw(CI, &mut room);
    on_co.saturating_add(on_ci)
}

/// The length of the PDU that the client takes next; 0 where it takes none.
fn taken_len(client: &mut Client) -> u16 {
    let mut room = [0; 8192];
    match client.take(&mut room) {
        Take::Pdu(len) => len,
        Take::Empty | Take::Ended | Take::Closed(_) => 0,
    }
}

/// Why the client closed at this verdict, as reports have it.
fn why(alloc: Global, verdict: Verdict) -> Option<String> {
    let mut text = String::new(alloc);
    match verdict {
        Verdict::Closed(cause) => write_cause(&cause, &mut text).ok()?,
        Verdict::Going | Verdict::Ended => (),
    }
    Some(text)
}

fn main(rt: HostRuntime) -> io::Result<()> {
    let Some(mut client) = made_client(rt.alloc()) else {
        return println!(rt; "no memory");
    };
    println!(rt; "it puts {} bytes", connect(&mut client))?;
    let _ = client.bytes(CO, HEAD);
    let _ = client.bytes(CO, &CONN_A3);
    println!(rt; "behind CONN/A3 it is {}", state_word(client.state()))?;
    let _ = client.bytes(CO, &CONN_C2);
    println!(rt; "behind CONN/C2 it is {}", state_word(client.state()))?;

    let _ = client.give(&REQUEST);
    let mut room = [0; 4096];
    println!(rt; "it puts {} bytes on ci1", client.draw(CI, &mut room))?;
    for byte in RESPONSE {
        let _ = client.bytes(CO, &[byte]);
    }
    println!(rt; "it takes {} bytes", taken_len(&mut client))?;

    let verdict = client.bytes(CO, &CONN_A3);
    println!(rt;
        "behind another CONN/A3 it is {}",
        state_word(client.state())
    )?;
    match why(rt.alloc(), verdict) {
        Some(cause) => println!(rt; "{cause}"),
        None => println!(rt; "no memory"),
    }
}
