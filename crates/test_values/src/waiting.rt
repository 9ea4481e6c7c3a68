//! Packets that wait: merged, refused, passed by.

use Deed::{Adds, Clears, Counts, Forwards, IsEmpty, NoneOf, Refuses, Takes, TakesOf};
use Origin::{Forwarded, Own};
use Packet::{Ack, EndA1, EndA2, OutA9, OutA10};
use rh_rts::Cookie;
use rh_shell::{Due, FORWARDED_ROOM, Gate, OWN_ROOM, Origin, Waiting};
use rh_sig::Named;
use std::alloc::{AllocError, Global};
use std::test::Fail;

/// Lets packets go that came from there.
#[derive(Drop)]
struct Only(Origin);

impl Gate for Only {
    ghost use Rattle.rh_shell.specs.Waiting.{is_of};

    ghost lets = { λ s due. is_of s.0 due };

    fn may_go(&self, due: &Due) -> bool {
        due.is_of(self.0)
    }
}

/// Lets each packet go.
#[derive(Drop)]
struct Free;

impl Gate for Free {
    ghost use Rattle.std.specs.Prelude.{true};

    ghost lets = { λ s due. true };

    fn may_go(&self, _due: &Due) -> bool {
        true
    }
}

/// A packet that waits.
#[derive(Clone, Copy)]
enum Packet {
    /// An acknowledgement: its destination, the bytes received, the window, and the byte of which
    /// its channel's cookie is made.
    Ack(u32, u32, u32, u8),
    OutA9,
    OutA10,
    EndA1,
    EndA2,
}

impl Packet {
    fn named(self) -> Named {
        match self {
            Packet::Ack(to, received, window, channel) => {
                Named::AckTo(to, received, window, Cookie([channel; 16]))
            }
            Packet::OutA9 => Named::OutR1A9,
            Packet::OutA10 => Named::OutR1A10,
            Packet::EndA1 => Named::EndA1,
            Packet::EndA2 => Named::EndA2,
        }
    }
}

/// What is done with packets that wait, and what comes of it.
#[derive(Clone, Copy)]
enum Deed {
    /// A packet is forwarded, and merged or put behind the others.
    Forwards(Packet),
    /// A packet can't be forwarded for want of room.
    Refuses(Packet),
    /// A packet of its own is put behind the others.
    Adds(Packet),
    /// This is the first packet, and is taken.
    Takes(Packet),
    /// This is the first of those that came from there, and is taken.
    TakesOf(Origin, Packet),
    /// None is there that came from there.
    NoneOf(Origin),
    /// So many packets wait that were forwarded, and so many of its own.
    Counts(usize, usize),
    /// All are dropped.
    Clears,
    /// None waits.
    IsEmpty,
}

// a greater edge
static GREATER: &[Deed] = &[
    Forwards(Ack(0, 100, 50, 1)),
    Forwards(OutA9),
    Forwards(Ack(0, 101, 50, 1)),
    Takes(Ack(0, 101, 50, 1)),
    Takes(OutA9),
    IsEmpty,
];

// a smaller edge
static SMALLER: &[Deed] = &[
    Forwards(Ack(0, 200, 0, 1)),
    Forwards(OutA9),
    Forwards(Ack(0, 100, 99, 1)),
    Takes(Ack(0, 200, 0, 1)),
    Takes(OutA9),
    IsEmpty,
];

// the same edge
static SAME: &[Deed] = &[
    Forwards(Ack(0, 100, 50, 1)),
    Forwards(OutA9),
    Forwards(Ack(0, 150, 0, 1)),
    Takes(Ack(0, 150, 0, 1)),
    Takes(OutA9),
    IsEmpty,
];

// an edge above 32 bits
static ABOVE: &[Deed] = &[
    Forwards(Ack(0, 4_294_967_295, 1, 1)),
    Forwards(OutA9),
    Forwards(Ack(0, 5, 5, 1)),
    Takes(Ack(0, 4_294_967_295, 1, 1)),
    Takes(OutA9),
    IsEmpty,
];

// three of one
static THREE: &[Deed] = &[
    Forwards(Ack(3, 1, 0, 1)),
    Forwards(Ack(3, 3, 0, 1)),
    Forwards(Ack(3, 2, 0, 1)),
    Takes(Ack(3, 3, 0, 1)),
    IsEmpty,
];

// another destination
static DESTINATION: &[Deed] = &[
    Forwards(Ack(0, 100, 50, 1)),
    Forwards(OutA9),
    Forwards(Ack(2, 101, 50, 1)),
    Takes(Ack(0, 100, 50, 1)),
    Takes(OutA9),
    Takes(Ack(2, 101, 50, 1)),
    IsEmpty,
];

// another channel
static CHANNEL: &[Deed] = &[
    Forwards(Ack(0, 100, 50, 1)),
    Forwards(OutA9),
    Forwards(Ack(0, 101, 50, 2)),
    Takes(Ack(0, 100, 50, 1)),
    Takes(OutA9),
    Takes(Ack(0, 101, 50, 2)),
    IsEmpty,
];

// no acknowledgement
static OTHERS: &[Deed] = &[
    Forwards(OutA9),
    Forwards(Ack(0, 100, 50, 1)),
    Forwards(OutA9),
    Takes(OutA9),
    Takes(Ack(0, 100, 50, 1)),
    Takes(OutA9),
    IsEmpty,
];

// its own stays its own when merged
static OWN_STAYS: &[Deed] = &[
    Adds(Ack(3, 100, 0, 1)),
    Forwards(Ack(3, 200, 0, 1)),
    Refuses(Ack(3, 200, 0, 2)),
    TakesOf(Own, Ack(3, 200, 0, 1)),
    IsEmpty,
];

// a full room refuses what it cannot merge
static FULL: &[Deed] = &[
    Forwards(Ack(0, 100, 0, 1)),
    Forwards(Ack(0, 100, 0, 2)),
    Forwards(Ack(0, 100, 0, 3)),
    Forwards(Ack(0, 100, 0, 4)),
    Forwards(Ack(0, 100, 0, 5)),
    Forwards(Ack(0, 100, 0, 6)),
    Forwards(Ack(0, 100, 0, 7)),
    Forwards(Ack(0, 100, 0, 8)),
    Forwards(Ack(0, 100, 0, 9)),
    Forwards(Ack(0, 100, 0, 10)),
    Forwards(Ack(0, 100, 0, 11)),
    Forwards(Ack(0, 100, 0, 12)),
    Forwards(Ack(0, 100, 0, 13)),
    Forwards(Ack(0, 100, 0, 14)),
    Forwards(Ack(0, 100, 0, 15)),
    Forwards(Ack(0, 100, 0, 16)),
    Refuses(Ack(0, 100, 0, 17)),
    Refuses(OutA9),
    Forwards(Ack(0, 101, 0, 16)),
    Counts(16, 0),
    Adds(EndA1),
    Counts(16, 1),
    Adds(EndA1),
    Counts(16, 2),
    Adds(EndA1),
    Counts(16, 3),
    Adds(EndA1),
    Counts(16, 4),
    Adds(EndA1),
    Counts(16, 5),
    Adds(EndA1),
    Counts(16, 6),
    Adds(EndA1),
    Counts(16, 7),
    Adds(EndA1),
    Counts(16, 8),
    Clears,
    IsEmpty,
    Forwards(OutA9),
];

// what is refused is passed by
static PASSED_BY: &[Deed] = &[
    Adds(EndA1),
    Forwards(OutA9),
    Adds(EndA2),
    Forwards(OutA10),
    TakesOf(Forwarded, OutA9),
    TakesOf(Own, EndA1),
    TakesOf(Own, EndA2),
    NoneOf(Own),
    TakesOf(Forwarded, OutA10),
    NoneOf(Forwarded),
    IsEmpty,
];

/// Does it, and answers whether what the deed says came of it.
fn does(waiting: &mut Waiting, deed: Deed) -> bool {
    match deed {
        Forwards(packet) => {
            let packet = packet.named();
            packet.may_be_written() && waiting.forward(packet)
        }
        Refuses(packet) => {
            let packet = packet.named();
            packet.may_be_written() && !waiting.forward(packet)
        }
        Adds(packet) => adds(waiting, packet.named()),
        Takes(packet) => {
            let first = waiting.first_fit(&Free);
            let taken = waiting.take(&Free);
            taken == first && taken.map(|due| due.packet) == Some(packet.named())
        }
        TakesOf(origin, packet) => {
            let due = Due {
                packet: packet.named(),
                origin,
            };
            waiting.first_fit(&Only(origin)) == Some(due)
                && waiting.take(&Only(origin)) == Some(due)
        }
        NoneOf(origin) => {
            waiting.first_fit(&Only(origin)).is_none() && waiting.take(&Only(origin)).is_none()
        }
        Counts(forwarded, own) => {
            waiting.count(Forwarded) == forwarded && waiting.count(Own) == own
        }
        Clears => {
            waiting.clear();
            true
        }
        IsEmpty => waiting.is_empty(),
    }
}

/// A packet of its own is put behind the others, where it may be; whether it was.
fn adds(waiting: &mut Waiting, packet: Named) -> bool {
    let may = packet.may_be_written() && waiting.count(Own) < OWN_ROOM;
    if may {
        waiting.add(packet);
    }
    may
}

/// Whether all is as the deeds say, one behind the other, with room for so many that are forwarded.
fn all_are_done(alloc: Global, room: u8, deeds: &[Deed]) -> Result<bool, AllocError> {
    let mut waiting = Waiting::new(alloc, room)?;
    for &deed in deeds {
        if !does(&mut waiting, deed) {
            return Ok(false);
        }
    }
    Ok(true)
}

#[test]
fn packets_wait_and_go_as_the_rows_say(rt: HostRuntime) -> Result<(), Fail> {
    for (room, deeds) in [
        (3, GREATER),
        (3, SMALLER),
        (3, SAME),
        (3, ABOVE),
        (3, THREE),
        (3, DESTINATION),
        (3, CHANNEL),
        (3, OTHERS),
        (0, OWN_STAYS),
        (FORWARDED_ROOM, FULL),
        (FORWARDED_ROOM, PASSED_BY),
    ] {
        assert!(rt; all_are_done(rt.alloc(), room, deeds)?, "{}", deeds.len());
    }
    Ok(())
}
