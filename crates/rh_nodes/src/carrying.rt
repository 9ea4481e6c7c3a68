//! The lines that carry bytes: drawn into flight at one end of a leg, and fed at the other.

ghost use Rattle.std.specs.Prelude.{◌≡◌, ◌≤◌, ◌<◌, ◌^◌, IfOk, OnOk, length, vec_len};
ghost use Rattle.rh_company.specs.Company.{rules_of};
ghost use Rattle.rh_nodes.specs.Carrying as seen;

use crate::nodes::Nodes;
use rh_company::{Cast, Company, Event};
use rh_line::Leg;
use rh_record::{Dir, Who};
use rh_text::Bytes;
use rh_wires::{Legs, receiver, sender};
use std::alloc::{AllocError, Global};

/// Makes a room of `count` bytes at least.
fn widen(room: &mut Vec<u8>, count: usize) -> Result<(), AllocError>
    ensures { OnOk result (count ≤ vec_len room.new) }
{
    if room.len() < count {
        room.resize(count, 0)?;
    }
    Ok(())
}

/// Draws what a node puts on the leg into flight, as much as the room has, and answers how many
/// bytes.
#[inline(always)]
fn draw_into<K: Cast>(
    alloc: Global,
    company: &mut Company<K>,
    legs: &mut Legs,
    at: (Who, Leg, Dir),
    room: &mut [u8],
) -> Result<u32, AllocError>
    requires { length room.old < 2 ^ 32 }
    ensures { IfOk result (λ count. (company.new, legs.new, count) ≡ seen.draw_into
        (rules_of K.Client.rules K.Server.rules K.InProxy.rules K.OutProxy.rules)
        company.old legs.old at.0 at.1 at.2 (length room.old)) }
{
    let (who, leg, dir) = at;
    let count = company.draw(who, leg, room);
    if count == 0 {
        return Ok(0);
    }
    let (bytes, _) = room.split_at(count);
    legs.put(alloc, leg, dir, bytes)?;
    Ok(count as u32)
}

impl<K: Cast> Nodes<K> {
    /// Draws up to `count` bytes into flight, and answers how many; `None` where the leg isn't up
    /// for the end that puts there.
    #[inline(always)]
    pub(crate) fn send(
        &mut self,
        alloc: Global,
        leg: Leg,
        dir: Dir,
        count: u32,
    ) -> Result<Option<u32>, AllocError>
        ensures { IfOk result (λ drawn. (self.new, drawn) ≡ seen.send
            (rules_of K.Client.rules K.Server.rules K.InProxy.rules K.OutProxy.rules)
            self.old leg dir count) }
    {
        if !self.legs.is_up(leg, sender(dir)) {
            return Ok(None);
        }
        let at = (self.at(leg, sender(dir)), leg, dir);
        widen(&mut self.room, count as usize)?;
        let (room, _) = self.room.as_mut_slice().split_at_mut(count as usize);
        let drawn = draw_into(alloc, &mut self.company, &mut self.legs, at, room)?;
        Ok(Some(drawn))
    }

    /// Feeds the first `count` bytes in flight, or all where there are fewer, and answers them;
    /// `None` where the leg isn't up for the end that takes them.
    #[inline(always)]
    pub(crate) fn feed(
        &mut self,
        alloc: Global,
        leg: Leg,
        dir: Dir,
        count: u32,
    ) -> Result<Option<Bytes>, AllocError>
        ensures { IfOk result (λ fed. (self.new, fed) ≡ seen.feed
            (rules_of K.Client.rules K.Server.rules K.InProxy.rules K.OutProxy.rules)
            self.old leg dir count) }
    {
        if !self.legs.is_up(leg, receiver(dir)) {
            return Ok(None);
        }
        let piece = self.legs.take(alloc, leg, dir, count as usize)?;
        let who = self.at(leg, receiver(dir));
        let event = Event::Comes { leg, piece };
        self.tell(who, &event)?;
        match event {
            Event::Comes { piece, .. } => Ok(Some(piece)),
            Event::Ends(_) | Event::Breaks(_) | Event::Passes(_) => unreachable!(),
        }
    }
}
