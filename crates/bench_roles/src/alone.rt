//! An in proxy alone, between a client that opened its channel and a server that acknowledges.

use crate::nodes::{PIECE, WINDOW, carry, cookie, made_client, made_in_proxy};
use rh_inproxy::InProxy;
use rh_line::{Leg, LegKind, State, Verdict};
use rh_sig::{Named, write_named};
use std::alloc::Global;

/// The legs of the first channel.
const CI: Leg = Leg {
    kind: LegKind::ClientIn,
    number: 1,
};

const IS: Leg = Leg {
    kind: LegKind::InServer,
    number: 1,
};

/// With what a server greets.
const GREETING: &[u8] = b"ncacn_http/1.0";
/// How many bytes come before they are acknowledged, at most: half the window.
const HALF: usize = 32_768;
/// The most bytes of a packet that the server puts here.
const PACKET: usize = 140;

/// The server puts a packet.
fn says(proxy: &mut InProxy, packet: &Named) {
    if !packet.may_be_written() {
        return;
    }
    let mut room = [0; PACKET];
    if let Ok(len) = write_named(packet, &mut room) {
        let (bytes, _) = room.split_at(len.min(PACKET));
        let _ = proxy.bytes(IS, bytes);
    }
}

/// The server reads all that the proxy puts.
fn drain(proxy: &mut InProxy) {
    let mut room = [0; PIECE];
    for _ in 0..WINDOW {
        if proxy.draw(IS, &mut room) == 0 {
            return;
        }
    }
}

/// An in proxy that knows the server's window.
fn opened(alloc: Global) -> Option<InProxy> {
    let mut client = made_client(alloc)?;
    let mut proxy = made_in_proxy(alloc)?;
    client.up(CI, cookie(4));
    proxy.up(CI);
    carry(&mut client, &mut proxy, CI);
    proxy.up(IS);
    drain(&mut proxy);
    let _ = proxy.bytes(IS, GREETING);
    says(&mut proxy, &Named::ConnB3(WINDOW, 1));
    Some(proxy)
}

/// The PDU, as often as half a window holds it.
fn stream_of(alloc: Global, pdu: &[u8]) -> Option<Vec<u8>> {
    let mut stream = Vec::new(alloc);
    for _ in 0..HALF.checked_div(pdu.len())? {
        stream.extend_from_slice(pdu).ok()?;
    }
    Some(stream)
}

/// The bytes come on the client's leg in pieces, and what the proxy puts is read.
fn feed(proxy: &mut InProxy, stream: &[u8]) -> Option<()> {
    for piece in stream.chunks(PIECE) {
        if proxy.bytes(CI, piece) != Verdict::Going {
            return None;
        }
        drain(proxy);
    }
    Some(())
}

/// Feeds the PDU as often as so many bytes hold it, and answers how many bytes were acknowledged.
pub(crate) fn through_in_proxy(alloc: Global, pdu: &[u8], most: u64) -> Option<u64> {
    let mut proxy = opened(alloc)?;
    let stream = stream_of(alloc, pdu)?;
    let len = u32::try_from(stream.len()).ok()?;
    let mut received: u32 = 0;
    for _ in 0..most.checked_div(u64::from(len))? {
        feed(&mut proxy, &stream)?;
        received = received.checked_add(len)?;
        says(&mut proxy, &Named::Ack(received, WINDOW, cookie(4)));
    }
    (proxy.state() == State::Open).then_some(u64::from(received))
}
