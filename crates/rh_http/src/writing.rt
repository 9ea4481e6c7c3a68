//! Writes the heads of clients and proxies (MS-RPCH 2.1.2).

ghost use Rattle.std.specs.Prelude.{◌≡◌, ◌≤◌, true, false, length};
ghost use Rattle.rh_http.specs.Hosts.{greatest_host};
ghost use Rattle.rh_http.specs.Lengths.{greatest_response, success};
ghost use Rattle.rh_http.specs.Requests.{method_of};
ghost use Rattle.rh_http.specs.Texts.{Writes, IsReadAs, IsToldAs, status_of, head_of, target_of, request_lines, request_text, in_request, out_request, response_text, echo_length, refusal_line, refusal_text};

use crate::config::ClientConfig;
use crate::pieces::write_pieces;
use crate::refusal::Refusal;
use crate::request::method;
use itoa::Buffer;
use rh_rts::NoRoom;

/// The bytes of an Echo packet, which follows the head of its answer (MS-RPCH 2.1.2).
pub const ECHO_LEN: u32 = 20;

/// Writes a request of these texts.
fn write_texts<'a>(
    method: &'a [u8],
    host: &'a [u8],
    port: &'a [u8],
    proxy: &'a [u8],
    digits: &'a [u8],
    room: &mut [u8],
) -> Result<usize, NoRoom>
    requires method { length method.now ≤ 12 }
    requires host { length host.now ≤ greatest_host }
    requires port { length port.now ≤ 40 }
    requires proxy { length proxy.now ≤ greatest_host }
    requires digits { length digits.now ≤ 40 }
    ensures { Writes
        (head_of (request_lines method.now (target_of host.now port.now) proxy.now digits.now))
        room.old room.new result }
{
    let pieces: [&'a [u8]; 10] = [
        method,
        b" /rpc/rpcproxy.dll?",
        host,
        b":",
        port,
        b" HTTP/1.1\r\nAccept: application/rpc\r\nUser-Agent: MSRPC\r\nHost: ",
        proxy,
        b"\r\nContent-Length: ",
        digits,
        b"\r\nConnection: Keep-Alive\r\nCache-Control: no-cache\r\nPragma: no-cache\r\n\r\n",
    ];
    write_pieces(&pieces, room)
}

/// Writes a request with this length.
#[tactic(auto, unfolding(crate::specs::Texts::request_text))]
fn write_request(
    inbound: bool,
    config: &ClientConfig,
    length: u32,
    room: &mut [u8],
) -> Result<usize, NoRoom>
    ensures { Writes (request_text (method_of inbound) config.now length) room.old room.new result }
{
    let mut port = Buffer::new();
    let mut count = Buffer::new();
    write_texts(
        method(inbound),
        config.host.text(),
        port.format(config.port).as_bytes(),
        config.proxy_host.text(),
        count.format(length).as_bytes(),
        room,
    )
}

/// Writes the request for an IN channel, whose Content-Length is the channel's lifetime, and
/// answers its length in bytes.
///
/// Fails where it is longer than the room, which then stays as it was.
pub fn write_in_request(config: &ClientConfig, room: &mut [u8]) -> Result<usize, NoRoom>
    ensures writes { Writes (in_request config.now) room.old room.new result }
    ensures read { IsReadAs true config.now config.now.lifetime (in_request config.now) }
{
    write_request(true, config, config.lifetime, room)
}

/// Writes the request for an OUT channel with this Content-Length, in bytes, and answers its length
/// in bytes.
///
/// The Content-Length is to be 76, or 120 for a successor. Fails where the request is longer than
/// the room, which then stays as it was.
pub fn write_out_request(
    config: &ClientConfig,
    length: u32,
    room: &mut [u8],
) -> Result<usize, NoRoom>
    ensures writes { Writes (out_request config.now length) room.old room.new result }
    ensures read { IsReadAs false config.now length (out_request config.now length) }
{
    write_request(false, config, length, room)
}

/// Writes the response of success with this Content-Length, in bytes, and answers its length in
/// bytes.
///
/// Fails where it is longer than the room, which then stays as it was.
#[tactic(auto, unfolding(crate::specs::Texts::response_text))]
pub fn write_out_response(length: u32, room: &mut [u8]) -> Result<usize, NoRoom>
    ensures writes { Writes (response_text length) room.old room.new result }
    ensures read { length ≤ greatest_response → IsToldAs success length (response_text length) }
{
    let mut count = Buffer::new();
    let pieces: [&[u8]; 3] = [
        b"HTTP/1.1 200 Success\r\nContent-Type: application/rpc\r\nContent-Length: ",
        count.format(length).as_bytes(),
        b"\r\n\r\n",
    ];
    write_pieces(&pieces, room)
}

/// Writes the head of the answer to an echo request, and answers its length in bytes. The Echo
/// packet is to follow it.
///
/// Fails where it is longer than the room, which then stays as it was.
pub fn write_echo(room: &mut [u8]) -> Result<usize, NoRoom>
    ensures writes { Writes (response_text echo_length) room.old room.new result }
    ensures read { IsToldAs success echo_length (response_text echo_length) }
{
    write_out_response(ECHO_LEN, room)
}

/// Writes a refusal, and answers its length in bytes.
///
/// Fails where it is longer than the room, which then stays as it was.
pub fn write_refusal(refusal: Refusal, room: &mut [u8]) -> Result<usize, NoRoom>
    ensures writes { Writes (refusal_text refusal) room.old room.new result }
    ensures read { IsToldAs (status_of refusal) 0 (refusal_text refusal) }
{
    let line: &[u8] = match refusal {
        Refusal::Bad => b"HTTP/1.1 400 Bad Request",
        Refusal::Missing => b"HTTP/1.1 404 Not Found",
        Refusal::Unavailable => b"HTTP/1.1 503 RPC Error: 6ba",
    };
    let pieces: [&[u8]; 2] = [line, b"\r\nContent-Length: 0\r\n\r\n"];
    write_pieces(&pieces, room)
}
