//! Heads and greetings that come in pieces of any length.

ghost use Rattle.std.specs.Prelude.{◌≡◌, ◌≤◌, ◌<◌, ◌+◌, ◌-◌, ◌++◌, [], length, take, min, IfNone};
ghost use Rattle.rh_http.specs.Ends.{IsOpen};
ghost use Rattle.rh_http.specs.Reading.{greatest_head};
ghost use Rattle.rh_shell.specs.Intakes.{is_whole_head, is_whole_greeting, greeting_length};
ghost use Rattle.rh_shell.specs.Texts.{Adds};

use rh_http::HeadEnd;
use rh_http::got::GREATEST_HEAD;
use std::marker::Model;

/// The length of a greeting, in bytes.
pub const GREETING_LEN: usize = 14;

/// Puts the front of the piece behind the first `held` bytes, as much as there is room for, and
/// answers how many bytes that are.
fn put(room: &mut [u8], held: usize, piece: &[u8]) -> usize
    requires { held ≤ length room.old }
    ensures count { result ≡ min (length room.old - held) (length piece.now) }
    ensures bytes { take (held + result) room.new ≡ take held room.old ++ take result piece.now }
{
    let count = (room.len() - held).min(piece.len());
    let end = held + count;
    room[held..end].copy_from_slice(&piece[..count]);
    count
}

/// The bytes of a head.
#[derive(Drop)]
pub(crate) struct HeadText {
    bytes: [u8; GREATEST_HEAD],
    len: usize,
    end: HeadEnd,
}

impl Model for HeadText {
    ghost use Rattle.std.specs.Prelude.{List, ℕ, take, ◌≤◌};
    ghost use Rattle.rh_http.specs.Ends.{IsOpen};
    ghost use Rattle.rh_http.specs.Reading.{greatest_head};

    ghost Value = { List ℕ };

    ghost view = { λ a. take a.len a.bytes };

    ghost invariant = { λ a. (a.len ≤ greatest_head) × (a.end ≤ a.len)
        × IsOpen (take a.end a.bytes) };
}

impl HeadText {
    /// Before the first byte.
    pub(crate) fn new() -> HeadText
        ensures { result ≡ [] }
    {
        HeadText {
            bytes: [0; GREATEST_HEAD],
            len: 0,
            end: HeadEnd::new(),
        }
    }

    /// The bytes that came.
    pub(crate) fn bytes(&self) -> &[u8]
        ensures bytes { result.now ≡ self.now }
        ensures most { length self.now ≤ greatest_head }
    {
        &self.bytes[..self.len]
    }

    /// Lets no bytes be held.
    pub(crate) fn clear(&mut self)
        ensures { self.new ≡ [] }
    {
        self.len = 0;
        self.end = HeadEnd::new();
    }

    /// Adds the piece up to the end of the head, and answers how many bytes of it those are where
    /// the head is whole.
    pub(crate) fn add(&mut self, piece: &[u8]) -> Option<usize>
        requires none { IsOpen self.old }
        requires short { length self.old < greatest_head }
        requires some { 0 < length piece.now }
        ensures adds { Adds is_whole_head self.old piece.now self.new result }
        ensures more { IfNone result (IsOpen self.new × (length self.new < greatest_head)) }
    {
        let held = self.len;
        let count = put(&mut self.bytes, held, piece);
        let len = held + count;
        if let Some(end) = self.end.find(&self.bytes[..len]) {
            self.len = end;
            self.end = HeadEnd::new();
            return Some(end - held);
        }
        self.len = len;
        if len == GREATEST_HEAD {
            return Some(count);
        }
        None
    }
}

/// The bytes of a greeting.
#[derive(Drop)]
pub(crate) struct GreetingText {
    bytes: [u8; GREETING_LEN],
    len: usize,
}

impl Model for GreetingText {
    ghost use Rattle.std.specs.Prelude.{List, ℕ, take, ◌≤◌};
    ghost use Rattle.rh_shell.specs.declared.text.TheConstants.{GREETING_LEN};

    ghost Value = { List ℕ };

    ghost view = { λ a. take a.len a.bytes };

    ghost invariant = { λ a. a.len ≤ GREETING_LEN };
}

impl GreetingText {
    /// Before the first byte.
    pub(crate) fn new() -> GreetingText
        ensures { result ≡ [] }
    {
        GreetingText {
            bytes: [0; GREETING_LEN],
            len: 0,
        }
    }

    /// The bytes that came.
    pub(crate) fn bytes(&self) -> &[u8]
        ensures bytes { result.now ≡ self.now }
        ensures most { length self.now ≤ greeting_length }
    {
        &self.bytes[..self.len]
    }

    /// Lets no bytes be held.
    pub(crate) fn clear(&mut self)
        ensures { self.new ≡ [] }
    {
        self.len = 0;
    }

    /// Adds the piece up to the end of the greeting, and answers how many bytes of it those are
    /// where the greeting is whole.
    pub(crate) fn add(&mut self, piece: &[u8]) -> Option<usize>
        requires short { length self.old < greeting_length }
        requires some { 0 < length piece.now }
        ensures adds { Adds is_whole_greeting self.old piece.now self.new result }
        ensures more { IfNone result (length self.new < greeting_length) }
    {
        let held = self.len;
        let count = put(&mut self.bytes, held, piece);
        self.len = held + count;
        (self.len == GREETING_LEN).then_some(count)
    }
}
