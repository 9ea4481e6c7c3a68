//! Where in a recording a line stands.

ghost use Rattle.std.specs.Prelude.{◌≡◌, MatchOption, List, ℕ};
ghost use Rattle.rh_text.specs.declared.ends.Side.{Side};
ghost use Rattle.rh_record.specs.declared.line.Line.TheVariants.{Give};

use crate::line::{Key, Line, RecordKind};

/// How many keys there are.
pub const KEYS: usize = 10;

/// Which keys were set, each at its place of `Key::place`.
#[derive(Clone, Copy, Debug)]
pub struct Keys {
    set: [bool; KEYS],
}

impl Key {
    ghost use Rattle.std.specs.Prelude.{◌≡◌, ◌<◌};
    ghost use Rattle.rh_record.specs.Places.{key_place};
    ghost use Rattle.rh_record.specs.declared.place.TheConstants.{KEYS};

    /// The place of the key in the order of the keys, from 0.
    pub fn place(self) -> usize
        ensures place { result ≡ key_place self }
        ensures few { result < KEYS }
    {
        match self {
            Key::Cwin => 0,
            Key::Iwin => 1,
            Key::Owin => 2,
            Key::Swin => 3,
            Key::Ilife => 4,
            Key::Olife => 5,
            Key::Itime => 6,
            Key::Otime => 7,
            Key::Keep => 8,
            Key::Same => 9,
        }
    }
}

impl Keys {
    ghost use Rattle.std.specs.Prelude.{◌≡◌};
    ghost use Rattle.rh_record.specs.Places.{has, no_keys, with_key};

    /// No key was set.
    pub fn none() -> Keys
        ensures { result ≡ no_keys }
    {
        Keys { set: [false; KEYS] }
    }

    /// Whether the key was set.
    pub fn has(&self, key: Key) -> bool
        ensures { result ≡ has self.now key }
    {
        self.set[key.place()]
    }

    /// These keys, and this one.
    pub fn with_key(self, key: Key) -> Keys
        ensures { result ≡ with_key self key }
    {
        let mut set = self.set;
        set[key.place()] = true;
        Keys { set }
    }
}

/// Where a line stands: it is the first; or a line of a direct recording; or a line of a recording
/// of roles, where these keys were set and nothing else came yet, or where something else came.
#[derive(Clone, Copy, Debug)]
pub enum Place {
    Header,
    Direct,
    Settings(Keys),
    Roles,
}

impl Place {
    ghost use Rattle.std.specs.Prelude.{◌≡◌, MatchOption, List, ℕ};
    ghost use Rattle.rh_text.specs.declared.ends.Side.{Side};
    ghost use Rattle.rh_record.specs.declared.line.Line.TheVariants.{Give};
    ghost use Rattle.rh_record.specs.Places.{MayFollow, kind_of, may_stand, next};

    /// What a line at this place may be.
    pub fn kind(self) -> RecordKind
        ensures { result ≡ kind_of self }
    {
        match self {
            Place::Header => RecordKind::Header,
            Place::Direct => RecordKind::Direct,
            Place::Settings(_) | Place::Roles => RecordKind::Roles,
        }
    }

    /// Whether a line of this kind may stand here: each key is set once, and before all else.
    pub fn may_stand(self, line: &Line) -> bool
        ensures { result ≡ may_stand self line.now }
    {
        match (self, line) {
            (Place::Settings(keys), Line::Set { key, .. }) => !keys.has(*key),
            (Place::Roles, Line::Set { .. }) => false,
            _ => true,
        }
    }

    /// The place behind a line.
    pub fn next(self, line: &Line) -> Place
        ensures { result ≡ next self line.now }
    {
        match (self, line) {
            (Place::Header, Line::First { roles: true }) => Place::Settings(Keys::none()),
            (Place::Header, _) => Place::Direct,
            (Place::Direct, _) => Place::Direct,
            (Place::Settings(keys), Line::Set { key, .. }) => Place::Settings(keys.with_key(*key)),
            (Place::Settings(_) | Place::Roles, _) => Place::Roles,
        }
    }

    /// The place behind a line; `None` exactly where the line may not stand at this place.
    pub(crate) fn behind(self, line: &Line) -> Option<Place>
        ensures { MatchOption result (¬ MayFollow self line.now)
            (λ place. MayFollow self line.now × (place ≡ next self line.now)) }
    {
        if line.fits(self.kind()) && self.may_stand(line) {
            Some(self.next(line))
        } else {
            None
        }
    }

    /// The place behind any give; `None` exactly where none may stand.
    pub(crate) fn behind_give(self) -> Option<Place>
        ensures { (side : Side) (pdu : List ℕ)
            → MatchOption result (¬ MayFollow self (Give side pdu))
            (λ place. MayFollow self (Give side pdu) × (place ≡ next self (Give side pdu))) }
    {
        match self {
            Place::Header => None,
            Place::Direct => Some(Place::Direct),
            Place::Settings(_) | Place::Roles => Some(Place::Roles),
        }
    }
}
