//! Reads the lines of a script: words with one blank between two of them.

ghost use Rattle.std.specs.Prelude.{◌≡◌, ◌↔◌, ℕ, List, IsAscii, IsTrue, codes, Err, IfOk, MatchOption};
ghost use Rattle.std.specs.declared.option.Option.{Option};
ghost use Rattle.rh_rts.specs.declared.command.Cookie.{Cookie};
ghost use Rattle.rh_line.specs.declared.leg.Leg.{Leg};
ghost use Rattle.rh_record.specs.declared.line.Key.{Key};
ghost use Rattle.rh_record.specs.Words.{Is, IsCount, IsLeg, IsValue, Then, Word, key_word};
ghost use Rattle.rh_script.specs.declared.step.Naming.{Naming};
ghost use Rattle.rh_script.specs.declared.step.Step.{Step};
ghost use Rattle.rh_script.specs.declared.reading.StepRefused.TheVariants.{Grammar};
ghost use Rattle.rh_script.specs.Steps.{ask_word, cut_word, loss_word, naming_word};
ghost use Rattle.rh_script.specs.Scripts.{IsBytes, IsChannel, IsCookie, IsNote, IsUp, StepText};
ghost use Rattle.rh_script.specs.Verbs.{lone_step, verb_word};
ghost use Rattle.rh_script.specs.ParsedSteps.{IsBehind, IsParsed, IsRead, IsWhole};

use crate::step::{Act, Ask, Cut, Loss, Naming, Part, Step};
use crate::verb::{Lone, Verb};
use crate::words::Words;
use rh_line::Leg;
use rh_record::Key;
use rh_record::reading::{LAST_MOMENT, MOST_BYTES};
use rh_record::words::{MOST_NUMBER, read_leg, split_word};
use rh_rts::{COOKIE_LEN, Cookie};
use rh_text::digits::decode_hex;
use rh_text::{Bytes, is_hex, read_hex, read_number};
use std::alloc::{AllocError, Global};

/// The byte with which a comment begins.
pub const HASH: u8 = b'#';

/// Why a text is no line.
#[derive(Clone, Copy, Debug, PartialEq, Eq)]
pub enum StepRefused {
    /// No line is spelled so.
    Grammar,
    /// There was no memory for the bytes of the line.
    NoMemory,
}

impl From<AllocError> for StepRefused {
    ghost use Rattle.std.specs.Prelude.{◌≡◌};
    ghost use Rattle.rh_script.specs.declared.reading.StepRefused.TheVariants.{NoMemory};

    ghost from_gives = { λ _ refused. refused ≡ NoMemory };

    fn from(_: AllocError) -> StepRefused {
        StepRefused::NoMemory
    }
}

/// A line as far as it is read without memory: its words or bytes are still spelled.
#[derive(Drop)]
pub(crate) enum Parsed<'a> {
    Case(&'a [u8]),
    Feed { cut: Cut, leg: Leg, hex: &'a [u8] },
    Give(&'a [u8]),
    First(&'a [u8]),
    Plain(Step),
}

// ---- words that several lines have

/// The number of a channel.
fn read_channel(word: &[u8]) -> Option<u32>
    ensures { MatchOption result ((number : ℕ) → ¬ IsChannel number word.now)
        (λ number. IsChannel number word.now) }
{
    let number = read_number(word, 1, MOST_NUMBER)? as u32;
    Some(number)
}

/// The key and a value of it.
fn read_setting(text: &[u8]) -> Option<(Key, u32)>
    ensures { MatchOption result ((key : Key) (value : ℕ)
        → ¬ Word (key_word key) (IsValue key value) text.now)
        (λ found. Word (key_word found.0) (IsValue found.0 found.1) text.now) }
{
    let (key, value) = split_word(text)?;
    let key = Key::of_word(key)?;
    let value = key.read_value(value)?;
    Some((key, value))
}

/// Whether packets are named.
fn read_naming(word: &[u8]) -> Option<Naming>
    ensures { MatchOption result ((naming : Naming) → ¬ (word.now ≡ naming_word naming))
        (λ naming. word.now ≡ naming_word naming) }
{
    match word {
        b"on" => Some(Naming::On),
        b"off" => Some(Naming::Off),
        _ => None,
    }
}

/// The cookie of 32 hex digits.
fn read_cookie(word: &[u8]) -> Option<Cookie>
    ensures { MatchOption result ((cookie : Cookie) → ¬ IsCookie cookie word.now)
        (λ cookie. IsCookie cookie word.now) }
{
    let mut bytes = [0; COOKIE_LEN];
    let count = decode_hex(word, &mut bytes)?;
    if count == COOKIE_LEN {
        Some(Cookie(bytes))
    } else {
        None
    }
}

/// The leg, and the cookie behind it, where one stands there.
fn read_up(text: &[u8]) -> Option<(Leg, Option<Cookie>)>
    ensures { MatchOption result ((leg : Leg) (cookie : Option Cookie) → ¬ IsUp leg cookie text.now)
        (λ found. IsUp found.0 found.1 text.now) }
{
    match split_word(text) {
        None => {
            let leg = read_leg(text)?;
            Some((leg, None))
        }
        Some((leg, cookie)) => {
            let leg = read_leg(leg)?;
            let cookie = read_cookie(cookie)?;
            Some((leg, Some(cookie)))
        }
    }
}

/// The leg and the count of bytes.
fn read_draw(text: &[u8]) -> Option<(Leg, u32)>
    ensures { MatchOption result ((leg : Leg) (count : ℕ)
        → ¬ Then (IsLeg leg) (IsCount count) text.now)
        (λ found. Then (IsLeg found.0) (IsCount found.1) text.now) }
{
    let (leg, count) = split_word(text)?;
    let leg = read_leg(leg)?;
    let count = read_number(count, 1, MOST_BYTES as u64)? as u32;
    Some((leg, count))
}

/// The leg, and the word behind it.
fn split_leg(text: &[u8]) -> Option<(Leg, &[u8])>
    ensures { MatchOption result ((leg : Leg) (last : List ℕ)
        → ¬ Then (IsLeg leg) (Is last) text.now)
        (λ found. Then (IsLeg found.0) (Is found.1.now) text.now) }
{
    let (leg, last) = split_word(text)?;
    let leg = read_leg(leg)?;
    Some((leg, last))
}

// ---- lines, each behind its verb

/// Reads the words of a case, as they are.
fn parse_case(words: &[u8]) -> Option<Parsed<'_>>
    ensures { IsBehind (codes "case") words.now result }
{
    Some(Parsed::Case(words))
}

/// Reads a setting.
fn parse_set(words: &[u8]) -> Option<Parsed<'_>>
    ensures { IsBehind (codes "set") words.now result }
{
    let (key, value) = read_setting(words)?;
    Some(Parsed::Plain(Step::Set { key, value }))
}

/// Reads whether packets are named.
fn parse_names(words: &[u8]) -> Option<Parsed<'_>>
    ensures { IsBehind (codes "names") words.now result }
{
    let naming = read_naming(words)?;
    Some(Parsed::Plain(Step::Names(naming)))
}

/// Reads the number of an in proxy that begins.
fn parse_in_proxy(words: &[u8]) -> Option<Parsed<'_>>
    ensures { IsBehind (codes "inproxy") words.now result }
{
    let number = read_channel(words)?;
    Some(Parsed::Plain(Step::Begin(Part::InProxy(number))))
}

/// Reads the number of an out proxy that begins.
fn parse_out_proxy(words: &[u8]) -> Option<Parsed<'_>>
    ensures { IsBehind (codes "outproxy") words.now result }
{
    let number = read_channel(words)?;
    Some(Parsed::Plain(Step::Begin(Part::OutProxy(number))))
}

/// Reads the leg of which something is asked.
fn parse_ask(ask: Ask, words: &[u8]) -> Option<Parsed<'_>>
    ensures { IsBehind (ask_word ask) words.now result }
{
    let leg = read_leg(words)?;
    Some(Parsed::Plain(Step::Ask { ask, leg }))
}

/// Reads a leg that comes up.
fn parse_up(words: &[u8]) -> Option<Parsed<'_>>
    ensures { IsBehind (codes "up") words.now result }
{
    let (leg, cookie) = read_up(words)?;
    Some(Parsed::Plain(Step::Up { leg, cookie }))
}

/// Reads the leg on which bytes come, but not the bytes.
fn parse_feed(cut: Cut, words: &[u8]) -> Option<Parsed<'_>>
    ensures { IsBehind (cut_word cut) words.now result }
{
    let (leg, hex) = split_leg(words)?;
    Some(Parsed::Feed { cut, leg, hex })
}

/// Reads a draw.
fn parse_draw(words: &[u8]) -> Option<Parsed<'_>>
    ensures { IsBehind (codes "draw") words.now result }
{
    let (leg, count) = read_draw(words)?;
    Some(Parsed::Plain(Step::Draw { leg, count }))
}

/// Reads the leg that is lost.
fn parse_lose(loss: Loss, words: &[u8]) -> Option<Parsed<'_>>
    ensures { IsBehind (loss_word loss) words.now result }
{
    let leg = read_leg(words)?;
    Some(Parsed::Plain(Step::Lose { loss, leg }))
}

/// Reads a moment.
fn parse_tick(words: &[u8]) -> Option<Parsed<'_>>
    ensures { IsBehind (codes "tick") words.now result }
{
    let now = read_number(words, 0, LAST_MOMENT)?;
    Some(Parsed::Plain(Step::Tick { now }))
}

/// Reads a give but for its bytes.
fn parse_give(words: &[u8]) -> Option<Parsed<'_>>
    ensures { IsBehind (codes "give") words.now result }
{
    Some(Parsed::Give(words))
}

/// Reads the first bytes of a leg, but not what they are.
fn parse_first(words: &[u8]) -> Option<Parsed<'_>>
    ensures { IsBehind (codes "first") words.now result }
{
    Some(Parsed::First(words))
}

/// Reads the words behind the verb.
fn parse_behind(verb: Verb, words: &[u8]) -> Option<Parsed<'_>>
    ensures { IsBehind (verb_word verb) words.now result }
{
    match verb {
        Verb::Case => parse_case(words),
        Verb::Set => parse_set(words),
        Verb::Names => parse_names(words),
        Verb::InProxy => parse_in_proxy(words),
        Verb::OutProxy => parse_out_proxy(words),
        Verb::Wants => parse_ask(Ask::Wants, words),
        Verb::May => parse_ask(Ask::May, words),
        Verb::Finished => parse_ask(Ask::Finished, words),
        Verb::Up => parse_up(words),
        Verb::Feed => parse_feed(Cut::Whole, words),
        Verb::Each => parse_feed(Cut::Each, words),
        Verb::Draw => parse_draw(words),
        Verb::Ended => parse_lose(Loss::Ended, words),
        Verb::Broken => parse_lose(Loss::Broken, words),
        Verb::Tick => parse_tick(words),
        Verb::Give => parse_give(words),
        Verb::First => parse_first(words),
    }
}

/// The line that is one word.
fn step_of(lone: Lone) -> Step
    ensures { result ≡ lone_step lone }
{
    match lone {
        Lone::Client => Step::Begin(Part::Client),
        Lone::Server => Step::Begin(Part::Server),
        Lone::Take => Step::Act(Act::Take),
        Lone::Close => Step::Act(Act::Close),
        Lone::Recycle => Step::Act(Act::Recycle),
        Lone::State => Step::Act(Act::State),
        Lone::Channels => Step::Act(Act::Channels),
        Lone::Target => Step::Act(Act::Target),
    }
}

/// Reads a line that is no comment, but for its last words.
fn parse_words(text: &[u8]) -> Option<Parsed<'_>>
    requires { ¬ IsNote text.now }
    ensures { IsParsed result text.now }
{
    if let Some((verb, words)) = Verb::split(text) {
        return parse_behind(verb, words);
    }
    let lone = Lone::of_word(text)?;
    Some(Parsed::Plain(step_of(lone)))
}

/// Whether a text is a comment.
fn is_note(text: &[u8]) -> bool
    ensures { IsTrue result ↔ IsNote text.now }
{
    match text {
        [HASH, ..] => true,
        _ => false,
    }
}

/// Reads a line of any kind, but for its last words.
fn parse(text: &[u8]) -> Option<Parsed<'_>>
    ensures { IsParsed result text.now }
{
    if is_note(text) {
        return Some(Parsed::Plain(Step::Note));
    }
    parse_words(text)
}

/// Whether the last words of a line are some that it may have. No memory is taken.
fn is_whole(parsed: &Parsed<'_>) -> bool
    ensures { IsTrue result ↔ IsWhole parsed.now }
{
    match parsed {
        Parsed::Plain(_) => true,
        Parsed::Case(words) => words.is_ascii(),
        Parsed::Feed { hex, .. } => is_hex(hex, MOST_BYTES),
        Parsed::Give(hex) => is_hex(hex, MOST_BYTES),
        Parsed::First(hex) => is_hex(hex, MOST_BYTES),
    }
}

/// Whether a text is a line. No memory is taken.
pub(crate) fn is_step(text: &[u8]) -> bool
    ensures { IsTrue result ↔ ((step : Step) × StepText step text.now) }
{
    match parse(text) {
        None => false,
        Some(parsed) => is_whole(&parsed),
    }
}

/// Reads the bytes at the end of a line.
fn read_bytes(alloc: Global, hex: &[u8]) -> Result<Bytes, StepRefused>
    ensures bytes { IfOk result (λ bytes. IsBytes bytes hex.now) }
    ensures grammar { result ≡ Err Grammar → (bytes : List ℕ) → ¬ IsBytes bytes hex.now }
{
    match read_hex(alloc, hex, MOST_BYTES)? {
        Some(bytes) => Ok(bytes),
        None => Err(StepRefused::Grammar),
    }
}

/// Copies the words of a case.
fn read_words(alloc: Global, text: &[u8]) -> Result<Words, StepRefused>
    ensures words { IfOk result (λ words. (words ≡ text.now) × IsAscii text.now) }
    ensures grammar { result ≡ Err Grammar → ¬ IsAscii text.now }
{
    if !text.is_ascii() {
        return Err(StepRefused::Grammar);
    }
    Ok(Words::copy(alloc, text)?)
}

/// Reads the last words of a line.
fn read_last(alloc: Global, parsed: Parsed<'_>) -> Result<Step, StepRefused>
    ensures step { IfOk result (λ step. IsRead parsed.entry step) }
    ensures grammar { result ≡ Err Grammar → ¬ IsWhole parsed.entry }
{
    match parsed {
        Parsed::Plain(step) => Ok(step),
        Parsed::Case(words) => {
            let words = read_words(alloc, words)?;
            Ok(Step::Case { words })
        }
        Parsed::Feed { cut, leg, hex } => {
            let bytes = read_bytes(alloc, hex)?;
            Ok(Step::Feed { cut, leg, bytes })
        }
        Parsed::Give(hex) => {
            let pdu = read_bytes(alloc, hex)?;
            Ok(Step::Give { pdu })
        }
        Parsed::First(hex) => {
            let bytes = read_bytes(alloc, hex)?;
            Ok(Step::First { bytes })
        }
    }
}

/// Reads a line.
///
/// The text is without the LF that ends it. `Grammar` is answered exactly where it is no line, and
/// `NoMemory` where there is no memory for its words or bytes.
pub fn read_step(alloc: Global, text: &[u8]) -> Result<Step, StepRefused>
    ensures step { IfOk result (λ step. StepText step text.now) }
    ensures grammar { result ≡ Err Grammar → (step : Step) → ¬ StepText step text.now }
{
    match parse(text) {
        None => Err(StepRefused::Grammar),
        Some(parsed) => read_last(alloc, parsed),
    }
}
