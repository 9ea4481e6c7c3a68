//! The queue of a sender, and the PDU that was begun: `new` begins one, with `push`, `pop`, `turn`,
//! `front`, `held`, `draw` and `begun`.

use crate::numbers::{number_of, short_of};
use crate::spelling::{Around, tell, tell_same};
use rh_line::{BegunPdu, SendLine, draw};
use rh_pdu::check;
use rh_text::write_hex;
use std::alloc::{AllocError, Global};

/// A queue, and the PDU that was begun.
#[derive(Drop)]
pub struct Queue {
    line: SendLine,
    begun: BegunPdu,
}

fn push(line: &mut SendLine, pdu: &[u8], out: &mut String) -> Result<(), AllocError> {
    if check(pdu).is_err() {
        return out.push_str("no PDU");
    }
    tell(line.push(pdu), out)
}

/// Appends the length of the PDU that leaves the queue, and whether it is this one.
fn pop(line: &mut SendLine, pdu: &[u8], out: &mut String) -> Result<(), AllocError> {
    let mut room = [0x77; 8192];
    tell(line.pop(&mut room), out)?;
    let (front, behind) = room.split_at(pdu.len().min(8192));
    tell_same(front, pdu, out)?;
    if behind.iter().any(|byte| *byte != 0x77) {
        out.push_str(" and more")?;
    }
    Ok(())
}

/// So many times a PDU is pushed and the first one popped; whether all that was done.
fn turn(line: &mut SendLine, times: u64, pdu: &[u8]) -> bool {
    let mut room = [0; 8192];
    if check(pdu).is_err() {
        return false;
    }
    for _ in 0..times.min(100_000) {
        if !line.push(pdu) || line.pop(&mut room).is_none() {
            return false;
        }
    }
    true
}

impl Queue {
    /// An empty queue, of which nothing was begun.
    pub fn new(alloc: Global) -> Result<Queue, AllocError> {
        Ok(Queue {
            line: SendLine::new(alloc)?,
            begun: BegunPdu::new(),
        })
    }

    /// Appends how many bytes are drawn into a room of so many, and the whole room.
    fn drawn(&mut self, size: u16, out: &mut String) -> Result<(), AllocError> {
        let mut room = [0x77; 8192];
        let size = usize::from(size).min(8192);
        let count = draw(&mut self.line, &mut self.begun, &mut room[..size]);
        tell(count, out)?;
        out.push_str(":")?;
        write_hex(&room[..size], out)
    }

    /// Calls that need no memory.
    fn call_within(&mut self, call: &str, text: &[u8], out: &mut String) -> Result<(), AllocError> {
        match call {
            "front" => tell(self.line.front(), out),
            "held" => tell(self.line.held(), out),
            "begun" => tell(self.begun.len(), out),
            "draw" => self.drawn(short_of(text), out),
            _ => out.push_str("?"),
        }
    }

    /// Answers a call.
    pub fn call(
        &mut self,
        alloc: Global,
        around: &Around,
        call: &str,
        text: &[u8],
        out: &mut String,
    ) -> Result<(), AllocError> {
        match call {
            "new" => {
                *self = Queue::new(alloc)?;
                Ok(())
            }
            "push" => push(&mut self.line, &around.bytes(alloc, text)?, out),
            "pop" => pop(&mut self.line, &around.bytes(alloc, text)?, out),
            "turn" => {
                let (times, spelled) = number_of(text);
                tell(
                    turn(&mut self.line, times, &around.bytes(alloc, spelled)?),
                    out,
                )
            }
            _ => self.call_within(call, text, out),
        }
    }
}
