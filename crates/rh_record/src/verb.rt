//! The verb of a line: its first word.

use crate::words::split_word;

/// What a line's first word tells: the lines of one verb have one list of words, or two.
#[derive(Clone, Copy, Debug, PartialEq, Eq)]
pub(crate) enum Verb {
    Rh,
    Set,
    Give,
    Take,
    Close,
    Send,
    Move,
    Open,
    Break,
    End,
    Tick,
    Recycle,
    Settle,
}

/// All verbs, those of most lines first.
const VERBS: [Verb; 13] = [
    Verb::Move,
    Verb::Send,
    Verb::Take,
    Verb::Give,
    Verb::Rh,
    Verb::Set,
    Verb::Close,
    Verb::Open,
    Verb::Break,
    Verb::End,
    Verb::Tick,
    Verb::Recycle,
    Verb::Settle,
];

impl Verb {
    ghost use Rattle.std.specs.Prelude.{◌≡◌, ◌++◌, ◌∷◌, ℕ, List, MatchOption, IfSome};
    ghost use Rattle.rh_record.specs.declared.verb.Verb.{Verb};
    ghost use Rattle.rh_record.specs.declared.words.TheConstants.{BLANK};
    ghost use Rattle.rh_record.specs.Verbs.{verb_word};
    ghost use Rattle.rh_record.specs.Words.{Cut};

    /// The word for the verb.
    fn word(self) -> &'static [u8]
        ensures { result.now ≡ verb_word self }
    {
        match self {
            Verb::Rh => b"rh",
            Verb::Set => b"set",
            Verb::Give => b"give",
            Verb::Take => b"take",
            Verb::Close => b"close",
            Verb::Send => b"send",
            Verb::Move => b"move",
            Verb::Open => b"open",
            Verb::Break => b"break",
            Verb::End => b"end",
            Verb::Tick => b"tick",
            Verb::Recycle => b"recycle",
            Verb::Settle => b"settle",
        }
    }

    /// The verb that the word is; `None` where it is none. Those of most lines are tried first.
    pub(crate) fn of_word(word: &[u8]) -> Option<Verb>
        ensures { MatchOption result ((verb : Verb) → ¬ (word.now ≡ verb_word verb))
            (λ verb. word.now ≡ verb_word verb) }
    {
        'verbs: for at in 0..VERBS.len() {
            if word == VERBS[at].word() {
                return Some(VERBS[at]);
            }
        }
        None
    }

    /// The verb that begins a text, and the words behind it; `None` where none does.
    pub(crate) fn split_any(text: &[u8]) -> Option<(Verb, &[u8])>
        ensures { MatchOption result ((verb : Verb) (words : List ℕ)
            → ¬ Cut text.now (verb_word verb) words)
            (λ found. Cut text.now (verb_word found.0) found.1.now) }
    {
        let (word, words) = split_word(text)?;
        let verb = Verb::of_word(word)?;
        Some((verb, words))
    }

    /// The verb and the words of a text that begins with one of most lines, which takes no search
    /// for the blank; `None` may mean another verb.
    #[inline(always)]
    fn split_frequent(text: &[u8]) -> Option<(Verb, &[u8])>
        ensures { IfSome result (λ found. text.now ≡ verb_word found.0 ++ BLANK ∷ found.1.now) }
    {
        match text {
            [b'm', b'o', b'v', b'e', b' ', words @ ..] => Some((Verb::Move, words)),
            [b's', b'e', b'n', b'd', b' ', words @ ..] => Some((Verb::Send, words)),
            [b't', b'a', b'k', b'e', b' ', words @ ..] => Some((Verb::Take, words)),
            [b'g', b'i', b'v', b'e', b' ', words @ ..] => Some((Verb::Give, words)),
            _ => None,
        }
    }

    /// The verb that begins a text, and the words behind it; `None` where none does. Those of most
    /// lines are tried first.
    #[inline(always)]
    pub(crate) fn split(text: &[u8]) -> Option<(Verb, &[u8])>
        ensures { MatchOption result ((verb : Verb) (words : List ℕ)
            → ¬ Cut text.now (verb_word verb) words)
            (λ found. Cut text.now (verb_word found.0) found.1.now) }
    {
        match Verb::split_frequent(text) {
            Some((verb, words)) => Some((verb, words)),
            None => Verb::split_any(text),
        }
    }
}
