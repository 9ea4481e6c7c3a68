//! The lines at the ends: PDUs are given and taken, an end closes, a channel is replaced.

ghost use Rattle.std.specs.Prelude.{◌≡◌, ◌≤◌, ◌-◌, IfOk, length, take, min};
ghost use Rattle.rh_line.specs.Queue.{put_first};
ghost use Rattle.rh_nodes.specs.Giving as seen;

use crate::nodes::Nodes;
use rh_company::Cast;
use rh_line::{GiveFault, Take};
use rh_pdu::header::GREATEST_FRAG;
use rh_record::{Answer, Side, TakeAnswer};
use rh_shell::{EndRole, Shell};
use rh_text::Bytes;
use rh_wires::Counts;
use std::alloc::{AllocError, Global};

/// The length of a PDU that was accepted, which is at most 8,192.
fn length_of(pdu: &[u8]) -> u16
    ensures { result ≡ seen.length_of pdu.now }
{
    pdu.len().min(65_535) as u16
}

/// What is answered to a give.
fn give_answer(pdu: &[u8], given: Result<(), GiveFault>) -> Result<u16, GiveFault>
    ensures { result ≡ seen.give_answer pdu.now given }
{
    match given {
        Ok(()) => Ok(length_of(pdu)),
        Err(fault) => Err(fault),
    }
}

/// The PDU of this length at the front of the room.
fn first_pdu(alloc: Global, room: &[u8], len: u16) -> Result<Bytes, AllocError>
    requires { len ≤ length room.now }
    ensures { IfOk result (λ pdu. pdu ≡ take len room.now) }
{
    let (pdu, _) = room.split_at(usize::from(len));
    Ok(Bytes::new(Vec::from_slice(alloc, pdu)?))
}

/// The next PDU is taken at an end, where one is there, by way of the room.
fn take_from<R: EndRole>(
    alloc: Global,
    node: &mut Shell<R>,
    room: &mut [u8; GREATEST_FRAG],
) -> Result<TakeAnswer, AllocError>
    ensures { IfOk result (λ answer. (node.new, answer) ≡ seen.take_from R.acts node.old) }
{
    match node.take(room) {
        Take::Pdu(len) => Ok(TakeAnswer::Pdu(first_pdu(alloc, room, len)?)),
        Take::Empty => Ok(TakeAnswer::Empty),
        Take::Ended => Ok(TakeAnswer::Ended),
        Take::Closed(cause) => Ok(TakeAnswer::Closed(cause)),
    }
}

/// One more was given, where the PDU was accepted.
fn count_given(counts: &mut Counts, given: &Result<(), GiveFault>)
    ensures { counts.new ≡ seen.count_given counts.old given.now }
{
    match given {
        Ok(()) => counts.give(),
        Err(_) => {}
    }
}

/// One more was taken, where there was a PDU.
fn count_taken(counts: &mut Counts, answer: &TakeAnswer)
    ensures { counts.new ≡ seen.count_taken counts.old answer.now }
{
    match answer {
        TakeAnswer::Pdu(_) => counts.take(),
        TakeAnswer::Empty | TakeAnswer::Ended | TakeAnswer::Closed(_) => {}
    }
}

/// Whether a take was answered Ended, by this answer or before.
fn ended_by(ended: bool, answer: &TakeAnswer) -> bool
    ensures { result ≡ seen.ended_by ended answer.now }
{
    match answer {
        TakeAnswer::Ended => true,
        TakeAnswer::Pdu(_) | TakeAnswer::Empty | TakeAnswer::Closed(_) => ended,
    }
}

impl<K: Cast> Nodes<K> {
    ghost use Rattle.rh_record.specs.declared.answer.Answer.TheVariants as answers;
    ghost use Rattle.rh_nodes.specs.Giving.{deeds_of};

    fn give_client(&mut self, pdu: &[u8]) -> Result<u16, GiveFault>
        ensures { (self.new, result) ≡ seen.give_client K.Client.acts self.old pdu.now }
    {
        let given = self.company.client.give(pdu);
        count_given(&mut self.up, &given);
        give_answer(pdu, given)
    }

    fn give_server(&mut self, pdu: &[u8]) -> Result<u16, GiveFault>
        ensures { (self.new, result) ≡ seen.give_server K.Server.acts self.old pdu.now }
    {
        let given = self.company.server.give(pdu);
        count_given(&mut self.down, &given);
        give_answer(pdu, given)
    }

    /// A PDU is offered at an end.
    pub(crate) fn give(&mut self, side: Side, pdu: &[u8]) -> Answer
        ensures { (self.new, result)
            ≡ seen.give (deeds_of K.Client.acts K.Server.acts) self.old side pdu.now }
    {
        let answer = match side {
            Side::Client => self.give_client(pdu),
            Side::Server => self.give_server(pdu),
        };
        Answer::Give { side, answer }
    }

    fn take_client(&mut self, alloc: Global) -> Result<TakeAnswer, AllocError>
        ensures { IfOk result (λ answer.
            (self.new, answer) ≡ seen.take_client K.Client.acts self.old) }
    {
        let answer = take_from(alloc, &mut self.company.client, &mut self.taken)?;
        count_taken(&mut self.down, &answer);
        self.client_ended = ended_by(self.client_ended, &answer);
        Ok(answer)
    }

    fn take_server(&mut self, alloc: Global) -> Result<TakeAnswer, AllocError>
        ensures { IfOk result (λ answer.
            (self.new, answer) ≡ seen.take_server K.Server.acts self.old) }
    {
        let answer = take_from(alloc, &mut self.company.server, &mut self.taken)?;
        count_taken(&mut self.up, &answer);
        self.server_ended = ended_by(self.server_ended, &answer);
        Ok(answer)
    }

    /// The next PDU is asked for at an end.
    pub(crate) fn take(&mut self, alloc: Global, side: Side) -> Result<TakeAnswer, AllocError>
        ensures { IfOk result (λ answer. (self.new, answer)
            ≡ seen.take (deeds_of K.Client.acts K.Server.acts) self.old side) }
    {
        match side {
            Side::Client => self.take_client(alloc),
            Side::Server => self.take_server(alloc),
        }
    }

    /// Whether a take at the end was answered Ended.
    pub(crate) fn has_ended(&self, side: Side) -> bool
        ensures { result ≡ seen.has_ended self.entry.now side }
    {
        match side {
            Side::Client => self.client_ended,
            Side::Server => self.server_ended,
        }
    }

    /// No PDU will be given any more at an end.
    pub(crate) fn close(&mut self, side: Side) -> Answer
        ensures { (self.new, result)
            ≡ seen.close (deeds_of K.Client.acts K.Server.acts) self.old side }
    {
        match side {
            Side::Client => self.company.client.close(),
            Side::Server => self.company.server.close(),
        }
        Answer::Close { side }
    }

    /// The client is asked to replace the IN channel.
    pub(crate) fn recycle_in(&mut self) -> Answer
        ensures { (self.new, result)
            ≡ seen.recycle_in K.Client.acts K.Client.rules self.old }
    {
        Answer::RecycleIn(self.company.client.recycle())
    }

    /// The server is asked to replace the OUT channel.
    pub(crate) fn recycle_out(&mut self) -> Answer
        ensures { (self.new, result)
            ≡ seen.recycle_out K.Server.acts K.Server.rules self.old }
    {
        Answer::RecycleOut(self.company.server.recycle())
    }
}
