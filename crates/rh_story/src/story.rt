//! A story, which is told line by line.

use crate::held::Held;
use crate::lines::{Manner, Stream, write_items, write_pdu_line, write_reported, write_round};
use crate::rounds::{Settling, settling_of};
use crate::streams::key_of;
use rh_line::{Dir, Leg};
use rh_record::{Answer, Line, TakeAnswer};
use std::alloc::{AllocError, Global};
use std::marker::Model;

/// Tells a recording to people. Give it each line by `tell_of_line`, and then each answer to that
/// line by `tell_of_answer`; what it appends is the story.
///
/// Of each leg and direction it holds the bytes of an item that is not whole: 16,384 at most.
#[derive(Drop)]
pub struct Story {
    moment: u64,
    hex: bool,
    held: Held,
    settling: Option<Settling>,
}

impl Model for Story {
    ghost use Rattle.rh_story.specs.Stories.{Telling};

    ghost Value = { Telling };

    ghost view = { λ a. record { moment = a.moment; hex = a.hex; held = a.held; settling = a.settling } };
}

impl Story {
    ghost use Rattle.std.specs.Prelude.{◌≡◌, OnOk, string_bytes};
    ghost use Rattle.rh_text.specs.Writing.{Writes};
    ghost use Rattle.rh_story.specs.Rounds.{begins};
    ghost use Rattle.rh_story.specs.Stories as seen;

    /// A story of which nothing happened yet, at the moment 0. Where `hex` is true, the bytes of
    /// each packet, PDU and head stand in hex behind it.
    pub fn new(alloc: Global, hex: bool) -> Story
        ensures { result ≡ seen.begun hex }
    {
        Story {
            moment: 0,
            hex,
            held: Held::new(alloc),
            settling: None,
        }
    }

    /// How a line is told.
    fn manner(&self) -> Manner
        ensures moment { result.moment ≡ self.now.moment }
        ensures hex { result.hex ≡ self.now.hex }
    {
        Manner {
            moment: self.moment,
            hex: self.hex,
        }
    }

    /// Appends the items that a move makes whole.
    fn tell_moved(
        &mut self,
        alloc: Global,
        leg: Option<Leg>,
        dir: Dir,
        bytes: &[u8],
        out: &mut String,
    ) -> Result<(), AllocError>
        ensures text { Writes (seen.moved_told self.old leg dir bytes.now) result
            (string_bytes out.old) (string_bytes out.new) }
        ensures after { OnOk result (self.new ≡ seen.after_move self.old leg dir bytes.now) }
    {
        let (manner, key) = (self.manner(), key_of(leg, dir));
        let mut held = self.held.take(alloc, key)?;
        write_items(manner, Stream { leg, dir }, &mut held, bytes, out)?;
        self.held.put(key, held)
    }

    /// Appends what is told of a line before it is answered: the PDU that is given.
    ///
    /// Fails where there is no memory; a front of that may stand in `out` then, and nothing else.
    pub fn tell_of_line(&mut self, line: &Line, out: &mut String) -> Result<(), AllocError>
        ensures text { Writes (seen.line_told self.old line.now) result
            (string_bytes out.old) (string_bytes out.new) }
        ensures heard { OnOk result (self.new ≡ seen.heard self.old line.now) }
    {
        self.settling = settling_of(line);
        match line {
            Line::Give { side, pdu } => {
                write_pdu_line(self.manner(), "give ", *side, pdu.as_slice(), out)
            }
            _ => Ok(()),
        }
    }

    /// Appends the line of the round that an answer begins.
    fn tell_round(&mut self, answer: &Answer, out: &mut String) -> Result<(), AllocError>
        ensures text { Writes
            (seen.round_text self.old.moment (begins self.old.settling answer.now)) result
            (string_bytes out.old) (string_bytes out.new) }
        ensures after { OnOk result (self.new ≡ seen.in_round self.old answer.now) }
    {
        let Some(settling) = self.settling else {
            return Ok(());
        };
        write_round(self.moment, settling.begins(answer), out)?;
        self.settling = Some(settling.behind(answer));
        Ok(())
    }

    /// Appends what is told of an answer, but of the round that it begins.
    fn tell_answer(
        &mut self,
        alloc: Global,
        answer: &Answer,
        out: &mut String,
    ) -> Result<(), AllocError>
        ensures text { Writes (seen.answer_told self.old answer.now) result
            (string_bytes out.old) (string_bytes out.new) }
        ensures after { OnOk result (self.new ≡ seen.after_answer self.old answer.now) }
    {
        match answer {
            Answer::Give { answer: Ok(_), .. } | Answer::Move { bytes: None, .. } => Ok(()),
            Answer::Move {
                leg,
                dir,
                bytes: Some(bytes),
            } => self.tell_moved(alloc, *leg, *dir, bytes.as_slice(), out),
            Answer::Take {
                side,
                answer: TakeAnswer::Pdu(pdu),
            } => write_pdu_line(self.manner(), "take ", *side, pdu.as_slice(), out),
            Answer::Tick { now, ok: true } => {
                write_reported(self.moment, answer, out)?;
                self.moment = *now;
                Ok(())
            }
            _ => write_reported(self.moment, answer, out),
        }
    }

    /// Appends what is told of an answer: the round of a settling that it begins; the items that a
    /// move makes whole, by their names; a PDU that is taken; nothing of a give that was taken; and
    /// any other answer as the report has it. The moment stands before each line.
    ///
    /// Fails where there is no memory; a front of that may stand in `out` then, and nothing else.
    pub fn tell_of_answer(
        &mut self,
        alloc: Global,
        answer: &Answer,
        out: &mut String,
    ) -> Result<(), AllocError>
        ensures text { Writes (seen.told self.old answer.now) result
            (string_bytes out.old) (string_bytes out.new) }
        ensures after { OnOk result (self.new ≡ seen.after self.old answer.now) }
    {
        self.tell_round(answer, out)?;
        self.tell_answer(alloc, answer, out)
    }
}
