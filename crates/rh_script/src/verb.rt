//! The first words of lines.

use rh_record::words::split_word;

/// The first word of a line that has more.
#[derive(Clone, Copy)]
pub(crate) enum Verb {
    Case,
    Set,
    Names,
    InProxy,
    OutProxy,
    Wants,
    May,
    Finished,
    Up,
    Feed,
    Each,
    Draw,
    Ended,
    Broken,
    Tick,
    Give,
    First,
}

/// A line of one word.
#[derive(Clone, Copy)]
pub(crate) enum Lone {
    Client,
    Server,
    Take,
    Close,
    Recycle,
    State,
    Channels,
    Target,
}

/// All verbs.
const VERBS: [Verb; 17] = [
    Verb::Case,
    Verb::Set,
    Verb::Names,
    Verb::InProxy,
    Verb::OutProxy,
    Verb::Wants,
    Verb::May,
    Verb::Finished,
    Verb::Up,
    Verb::Feed,
    Verb::Each,
    Verb::Draw,
    Verb::Ended,
    Verb::Broken,
    Verb::Tick,
    Verb::Give,
    Verb::First,
];

/// All lines of one word.
const LONES: [Lone; 8] = [
    Lone::Client,
    Lone::Server,
    Lone::Take,
    Lone::Close,
    Lone::Recycle,
    Lone::State,
    Lone::Channels,
    Lone::Target,
];

impl Verb {
    ghost use Rattle.std.specs.Prelude.{◌≡◌, ℕ, List, MatchOption};
    ghost use Rattle.rh_record.specs.Words.{Cut};
    ghost use Rattle.rh_script.specs.declared.verb.Verb.{Verb};
    ghost use Rattle.rh_script.specs.Verbs.{verb_word};

    /// The word for it.
    fn word(self) -> &'static [u8]
        ensures { result.now ≡ verb_word self }
    {
        match self {
            Verb::Case => b"case",
            Verb::Set => b"set",
            Verb::Names => b"names",
            Verb::InProxy => b"inproxy",
            Verb::OutProxy => b"outproxy",
            Verb::Wants => b"wants",
            Verb::May => b"may",
            Verb::Finished => b"finished",
            Verb::Up => b"up",
            Verb::Feed => b"feed",
            Verb::Each => b"each",
            Verb::Draw => b"draw",
            Verb::Ended => b"ended",
            Verb::Broken => b"broken",
            Verb::Tick => b"tick",
            Verb::Give => b"give",
            Verb::First => b"first",
        }
    }

    /// The verb that the word is; `None` where it is none.
    pub(crate) fn of_word(word: &[u8]) -> Option<Verb>
        ensures { MatchOption result ((verb : Verb) → ¬ (word.now ≡ verb_word verb))
            (λ verb. word.now ≡ verb_word verb) }
    {
        'verbs: for at in 0..VERBS.len() {
            if word == VERBS[at].word() {
                return Some(VERBS[at]);
            }
        }
        None
    }

    /// The verb that begins a text, and the words behind its blank; `None` where none does.
    pub(crate) fn split(text: &[u8]) -> Option<(Verb, &[u8])>
        ensures { MatchOption result ((verb : Verb) (words : List ℕ)
            → ¬ Cut text.now (verb_word verb) words)
            (λ found. Cut text.now (verb_word found.0) found.1.now) }
    {
        let (word, words) = split_word(text)?;
        let verb = Verb::of_word(word)?;
        Some((verb, words))
    }
}

impl Lone {
    ghost use Rattle.std.specs.Prelude.{◌≡◌, MatchOption};
    ghost use Rattle.rh_script.specs.declared.verb.Lone.{Lone};
    ghost use Rattle.rh_script.specs.Verbs.{lone_word};

    /// The word for it.
    fn word(self) -> &'static [u8]
        ensures { result.now ≡ lone_word self }
    {
        match self {
            Lone::Client => b"client",
            Lone::Server => b"server",
            Lone::Take => b"take",
            Lone::Close => b"close",
            Lone::Recycle => b"recycle",
            Lone::State => b"state",
            Lone::Channels => b"channels",
            Lone::Target => b"target",
        }
    }

    /// The line that the word is; `None` where it is none.
    pub(crate) fn of_word(word: &[u8]) -> Option<Lone>
        ensures { MatchOption result ((lone : Lone) → ¬ (word.now ≡ lone_word lone))
            (λ lone. word.now ≡ lone_word lone) }
    {
        'lones: for at in 0..LONES.len() {
            if word == LONES[at].word() {
                return Some(LONES[at]);
            }
        }
        None
    }
}
