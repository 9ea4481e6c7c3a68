//! Reads the lines of a recording: words with one blank between two of them, the first of which is
//! the verb.

ghost use Rattle.std.specs.Prelude.{◌≡◌, ◌↔◌, ◌++◌, ◌∷◌, ℕ, List, Bool, IsTrue, codes, Err, IfOk, IfSome, MatchOption};
ghost use Rattle.std.specs.declared.option.Option.{Option};
ghost use Rattle.rh_text.specs.declared.ends.Dir.{Dir};
ghost use Rattle.rh_text.specs.declared.ends.Side.{Side};
ghost use Rattle.rh_text.specs.Ends.{dir_word, side_word};
ghost use Rattle.rh_line.specs.declared.leg.Leg.{Leg};
ghost use Rattle.rh_record.specs.declared.line.Line.{Line};
ghost use Rattle.rh_record.specs.declared.reading.LineRefused.TheVariants.{Grammar};
ghost use Rattle.rh_record.specs.declared.words.TheConstants.{BLANK};
ghost use Rattle.rh_record.specs.Verbs.{verb_word};
ghost use Rattle.rh_record.specs.Words.{Is, IsCount, IsInLeg, IsLeg, IsRoute, IsValue, Then, Word, key_word};
ghost use Rattle.rh_record.specs.Recording.{IsLine, form_word};
ghost use Rattle.rh_record.specs.ParsedLines.{IsBehind, IsParsed};

use crate::line::{Key, Line, RecordKind};
use crate::verb::Verb;
use crate::words::{read_in_leg, read_leg, read_route, split_word};
use rh_line::{Dir, Leg, Side};
use rh_text::{read_hex, read_number};
use std::alloc::{AllocError, Global};

/// The most bytes of a give, and the greatest count of a send or a move.
pub const MOST_BYTES: usize = 65_536;

/// The last moment of a recording, in milliseconds.
pub const LAST_MOMENT: u64 = 9_223_372_036_854_775_807;

/// The most rounds of a settling.
pub const MOST_ROUNDS: u64 = 100_000;

/// Why a text is no line.
#[derive(Clone, Copy, Debug, PartialEq, Eq)]
pub enum LineRefused {
    /// No line is spelled so.
    Grammar,
    /// There was no memory for the bytes of the line.
    NoMemory,
}

impl From<AllocError> for LineRefused {
    ghost use Rattle.std.specs.Prelude.{◌≡◌};
    ghost use Rattle.rh_record.specs.declared.reading.LineRefused.TheVariants.{NoMemory};

    ghost from_gives = { λ _ refused. refused ≡ NoMemory };

    fn from(_: AllocError) -> LineRefused {
        LineRefused::NoMemory
    }
}

/// A line as far as it is read without memory: the bytes of a give are still spelled.
#[derive(Drop)]
pub(crate) enum Parsed<'a> {
    Give { side: Side, hex: &'a [u8] },
    Plain(Line),
}

// ---- words that several lines have

/// The count of bytes.
#[inline(always)]
fn read_count(word: &[u8]) -> Option<u32>
    ensures { MatchOption result ((count : ℕ) → ¬ IsCount count word.now)
        (λ count. IsCount count word.now) }
{
    let count = read_number(word, 1, MOST_BYTES as u64)? as u32;
    Some(count)
}

/// The leg, the direction and the count of bytes.
fn read_any_piece(text: &[u8]) -> Option<(Option<Leg>, Dir, u32)>
    ensures { MatchOption result ((leg : Option Leg) (dir : Dir) (count : ℕ)
        → ¬ Then (IsRoute leg) (Word (dir_word dir) (IsCount count)) text.now)
        (λ found. Then (IsRoute found.0) (Word (dir_word found.1) (IsCount found.2)) text.now) }
{
    let (leg, rest) = split_word(text)?;
    let leg = read_route(leg)?;
    let (dir, count) = split_word(rest)?;
    let dir = Dir::of_word(dir)?;
    let count = read_count(count)?;
    Some((leg, dir, count))
}

/// The direction behind the leg of a direct recording, and the word behind that, which takes no
/// search for a blank; `None` may mean another leg.
#[inline(always)]
fn split_direct(text: &[u8]) -> Option<(Dir, &[u8])>
    ensures { IfSome result (λ found.
        text.now ≡ codes "cs" ++ BLANK ∷ (dir_word found.0 ++ BLANK ∷ found.1.now)) }
{
    match text {
        [b'c', b's', b' ', b'u', b' ', count @ ..] => Some((Dir::U, count)),
        [b'c', b's', b' ', b'd', b' ', count @ ..] => Some((Dir::D, count)),
        _ => None,
    }
}

/// The leg, the direction and the count of bytes. The leg of a direct recording is tried first.
#[inline(always)]
fn read_piece(text: &[u8]) -> Option<(Option<Leg>, Dir, u32)>
    ensures { MatchOption result ((leg : Option Leg) (dir : Dir) (count : ℕ)
        → ¬ Then (IsRoute leg) (Word (dir_word dir) (IsCount count)) text.now)
        (λ found. Then (IsRoute found.0) (Word (dir_word found.1) (IsCount found.2)) text.now) }
{
    match split_direct(text) {
        Some((dir, word)) => {
            let count = read_count(word)?;
            Some((None, dir, count))
        }
        None => read_any_piece(text),
    }
}

/// The leg and the direction.
fn read_leg_dir(text: &[u8]) -> Option<(Leg, Dir)>
    ensures { MatchOption result ((leg : Leg) (dir : Dir)
        → ¬ Then (IsLeg leg) (Is (dir_word dir)) text.now)
        (λ found. Then (IsLeg found.0) (Is (dir_word found.1)) text.now) }
{
    let (leg, dir) = split_word(text)?;
    let leg = read_leg(leg)?;
    let dir = Dir::of_word(dir)?;
    Some((leg, dir))
}

/// Whether the word is `same`.
fn is_same(word: &[u8]) -> bool
    ensures { IsTrue result ↔ (word.now ≡ codes "same") }
{
    word == b"same".as_slice()
}

/// The leg of an IN channel between client and in proxy, before the word `same`.
fn read_same(text: &[u8]) -> Option<Leg>
    ensures { MatchOption result ((leg : Leg) → ¬ Then (IsInLeg leg) (Is (codes "same")) text.now)
        (λ leg. Then (IsInLeg leg) (Is (codes "same")) text.now) }
{
    let (leg, same) = split_word(text)?;
    let leg = read_in_leg(leg)?;
    if is_same(same) { Some(leg) } else { None }
}

/// Whether the word tells the one version.
fn is_version(word: &[u8]) -> bool
    ensures { IsTrue result ↔ (word.now ≡ codes "1") }
{
    word == b"1".as_slice()
}

/// The form of the recording that the word names.
fn form_of_word(word: &[u8]) -> Option<bool>
    ensures { MatchOption result ((roles : Bool) → ¬ (word.now ≡ form_word roles))
        (λ roles. word.now ≡ form_word roles) }
{
    match word {
        b"direct" => Some(false),
        b"roles" => Some(true),
        _ => None,
    }
}

/// The form of the recording behind the number of its version.
fn read_form(text: &[u8]) -> Option<bool>
    ensures { MatchOption result ((roles : Bool)
        → ¬ Word (codes "1") (Is (form_word roles)) text.now)
        (λ roles. Word (codes "1") (Is (form_word roles)) text.now) }
{
    let (version, form) = split_word(text)?;
    let roles = form_of_word(form)?;
    if is_version(version) {
        Some(roles)
    } else {
        None
    }
}

/// The end, and the word behind it.
#[inline(always)]
fn split_side(text: &[u8]) -> Option<(Side, &[u8])>
    ensures { MatchOption result ((side : Side) (last : List ℕ)
        → ¬ Word (side_word side) (Is last) text.now)
        (λ found. Word (side_word found.0) (Is found.1.now) text.now) }
{
    let (side, last) = split_word(text)?;
    let side = Side::of_word(side)?;
    Some((side, last))
}

/// The key and a value of it.
fn read_setting(text: &[u8]) -> Option<(Key, u32)>
    ensures { MatchOption result ((key : Key) (value : ℕ)
        → ¬ Word (key_word key) (IsValue key value) text.now)
        (λ found. Word (key_word found.0) (IsValue found.0 found.1) text.now) }
{
    let (key, value) = split_word(text)?;
    let key = Key::of_word(key)?;
    let value = key.read_value(value)?;
    Some((key, value))
}

// ---- lines, each behind its verb

/// Reads the first line.
fn parse_first(words: &[u8]) -> Option<Parsed<'_>>
    ensures { IsBehind (codes "rh") words.now result }
{
    let roles = read_form(words)?;
    Some(Parsed::Plain(Line::First { roles }))
}

/// Reads a setting.
fn parse_set(words: &[u8]) -> Option<Parsed<'_>>
    ensures { IsBehind (codes "set") words.now result }
{
    let (key, value) = read_setting(words)?;
    Some(Parsed::Plain(Line::Set { key, value }))
}

/// Reads a give but for its bytes.
#[inline(always)]
fn parse_give(words: &[u8]) -> Option<Parsed<'_>>
    ensures { IsBehind (codes "give") words.now result }
{
    let (side, hex) = split_side(words)?;
    Some(Parsed::Give { side, hex })
}

/// Reads a take.
#[inline(always)]
fn parse_take(words: &[u8]) -> Option<Parsed<'_>>
    ensures { IsBehind (codes "take") words.now result }
{
    let side = Side::of_word(words)?;
    Some(Parsed::Plain(Line::Take { side }))
}

/// Reads a close.
fn parse_close(words: &[u8]) -> Option<Parsed<'_>>
    ensures { IsBehind (codes "close") words.now result }
{
    let side = Side::of_word(words)?;
    Some(Parsed::Plain(Line::Close { side }))
}

/// Reads a send.
#[inline(always)]
fn parse_send(words: &[u8]) -> Option<Parsed<'_>>
    ensures { IsBehind (codes "send") words.now result }
{
    let (leg, dir, count) = read_piece(words)?;
    Some(Parsed::Plain(Line::Send { leg, dir, count }))
}

/// Reads a move.
#[inline(always)]
fn parse_move(words: &[u8]) -> Option<Parsed<'_>>
    ensures { IsBehind (codes "move") words.now result }
{
    let (leg, dir, count) = read_piece(words)?;
    Some(Parsed::Plain(Line::Move { leg, dir, count }))
}

/// Reads an open, of either form.
fn parse_open(words: &[u8]) -> Option<Parsed<'_>>
    ensures { IsBehind (codes "open") words.now result }
{
    match split_word(words) {
        Some(_) => {
            let leg = read_same(words)?;
            Some(Parsed::Plain(Line::OpenSame { leg }))
        }
        None => {
            let leg = read_leg(words)?;
            Some(Parsed::Plain(Line::OpenLeg { leg }))
        }
    }
}

/// Reads a break.
fn parse_break(words: &[u8]) -> Option<Parsed<'_>>
    ensures { IsBehind (codes "break") words.now result }
{
    let leg = read_leg(words)?;
    Some(Parsed::Plain(Line::BreakLeg { leg }))
}

/// Reads an end.
fn parse_end(words: &[u8]) -> Option<Parsed<'_>>
    ensures { IsBehind (codes "end") words.now result }
{
    let (leg, dir) = read_leg_dir(words)?;
    Some(Parsed::Plain(Line::EndLeg { leg, dir }))
}

/// Reads a tick.
fn parse_tick(words: &[u8]) -> Option<Parsed<'_>>
    ensures { IsBehind (codes "tick") words.now result }
{
    let now = read_number(words, 0, LAST_MOMENT)?;
    Some(Parsed::Plain(Line::Tick { now }))
}

/// Reads a recycle, of either kind.
fn parse_recycle(words: &[u8]) -> Option<Parsed<'_>>
    ensures { IsBehind (codes "recycle") words.now result }
{
    match words {
        b"in" => Some(Parsed::Plain(Line::RecycleIn)),
        b"out" => Some(Parsed::Plain(Line::RecycleOut)),
        _ => None,
    }
}

/// Reads a settling.
fn parse_settle(words: &[u8]) -> Option<Parsed<'_>>
    ensures { IsBehind (codes "settle") words.now result }
{
    let rounds = read_number(words, 1, MOST_ROUNDS)? as u32;
    Some(Parsed::Plain(Line::Settle { rounds }))
}

/// Reads the words behind the verb.
#[inline(always)]
fn parse_behind(verb: Verb, words: &[u8]) -> Option<Parsed<'_>>
    ensures { IsBehind (verb_word verb) words.now result }
{
    match verb {
        Verb::Rh => parse_first(words),
        Verb::Set => parse_set(words),
        Verb::Give => parse_give(words),
        Verb::Take => parse_take(words),
        Verb::Close => parse_close(words),
        Verb::Send => parse_send(words),
        Verb::Move => parse_move(words),
        Verb::Open => parse_open(words),
        Verb::Break => parse_break(words),
        Verb::End => parse_end(words),
        Verb::Tick => parse_tick(words),
        Verb::Recycle => parse_recycle(words),
        Verb::Settle => parse_settle(words),
    }
}

/// Reads a line of any kind, by its verb, but for the bytes of a give.
#[inline(always)]
pub(crate) fn parse(text: &[u8]) -> Option<Parsed<'_>>
    ensures { IsParsed result text.now }
{
    let (verb, words) = Verb::split(text)?;
    parse_behind(verb, words)
}

impl Line {
    ghost use Rattle.std.specs.Prelude.{◌≡◌};
    ghost use Rattle.rh_record.specs.Recording.{fits};

    /// Whether the line may stand at a place for lines of this kind.
    pub fn fits(&self, kind: RecordKind) -> bool
        ensures { result ≡ fits kind self.now }
    {
        match (kind, self) {
            (RecordKind::Header, Line::First { .. }) => true,
            (RecordKind::Header, _) => false,
            (RecordKind::Direct, Line::Give { .. } | Line::Take { .. }) => true,
            (RecordKind::Direct, Line::Send { leg, .. } | Line::Move { leg, .. }) => leg.is_none(),
            (RecordKind::Direct, _) => false,
            (RecordKind::Roles, Line::First { .. }) => false,
            (RecordKind::Roles, Line::Send { leg, .. } | Line::Move { leg, .. }) => leg.is_some(),
            (RecordKind::Roles, _) => true,
        }
    }
}

/// Reads a line that stands at a place for lines of this kind.
///
/// The text is without the LF that ends the line. `Grammar` is answered exactly where it is no such
/// line, and `NoMemory` where there is no memory for the bytes of a give.
pub fn read_line(alloc: Global, text: &[u8], kind: RecordKind) -> Result<Line, LineRefused>
    ensures line { IfOk result (λ line. IsLine kind text.now line) }
    ensures grammar { result ≡ Err Grammar → (line : Line) → ¬ IsLine kind text.now line }
{
    match parse(text) {
        Some(Parsed::Plain(line)) => {
            if line.fits(kind) {
                Ok(line)
            } else {
                Err(LineRefused::Grammar)
            }
        }
        Some(Parsed::Give { side, hex }) => {
            if kind == RecordKind::Header {
                return Err(LineRefused::Grammar);
            }
            match read_hex(alloc, hex, MOST_BYTES)? {
                Some(pdu) => Ok(Line::Give { side, pdu }),
                None => Err(LineRefused::Grammar),
            }
        }
        None => Err(LineRefused::Grammar),
    }
}
