//! The forms of a command line.

ghost use Rattle.std.specs.Prelude.{◌≡◌, ◌≢◌, ◌∷◌, ℕ, [], MatchOption};
ghost use Rattle.std.specs.Fmt.{decimal};
ghost use Rattle.rh_made.specs.Making.{IsCount};
ghost use Rattle.rh_words.specs.declared.form.Form.{Form};
ghost use Rattle.rh_words.specs.Forms.{IsForm, IsMade, form_words};

use rh_made::MOST_GIVEN;
use rh_text::read_number;

/// What the words ask for.
#[derive(Clone, Copy, Debug, PartialEq, Eq)]
pub enum Form {
    /// `replay`: a recording's report.
    Replay,
    /// `story`: a recording, told to people.
    Story,
    /// `story hex`: the same, with the bytes in hex.
    HexStory,
    /// `show`: what the packets of lines of hex are.
    Show,
    /// `name`: what the packets of lines of hex are called.
    Name,
    /// `play`: what one role answers to a script.
    Play,
    /// `capture`: the capture of a recording's run.
    Capture,
    /// `audit`: what captured legs carried, and whether in order.
    Audit,
    /// `make <n>`: the summary of a generated recording of so many PDUs.
    Make(u32),
    /// `--help`: what each word does.
    Help,
    /// `--version`: the program's version.
    Version,
}

/// The form of the words behind the program's own name; `None` where they are in none.
pub fn form_of(words: &[String]) -> Option<Form>
    ensures { MatchOption result ((form : Form) → ¬ IsForm form words.now)
        (λ form. IsForm form words.now) }
{
    match words {
        [word] => form_of_word(word.as_str()),
        [word, number] => form_of_words(word.as_str(), number.as_str()),
        _ => None,
    }
}

/// The form of one word.
fn form_of_word(word: &str) -> Option<Form>
    ensures { MatchOption result ((form : Form) → word.now ∷ [] ≢ form_words form)
        (λ form. (word.now ∷ [] ≡ form_words form) × IsMade form) }
{
    match word {
        "replay" => Some(Form::Replay),
        "story" => Some(Form::Story),
        "show" => Some(Form::Show),
        "name" => Some(Form::Name),
        "play" => Some(Form::Play),
        "capture" => Some(Form::Capture),
        "audit" => Some(Form::Audit),
        "--help" => Some(Form::Help),
        "--version" => Some(Form::Version),
        _ => None,
    }
}

/// The form of two words.
fn form_of_words(word: &str, next: &str) -> Option<Form>
    ensures { MatchOption result
        ((form : Form) → word.now ∷ next.now ∷ [] ≡ form_words form → ¬ IsMade form)
        (λ form. (word.now ∷ next.now ∷ [] ≡ form_words form) × IsMade form) }
{
    match (word, next) {
        ("story", "hex") => Some(Form::HexStory),
        ("make", number) => Some(Form::Make(count_of(number)?)),
        _ => None,
    }
}

/// The number of PDUs that a word spells.
fn count_of(word: &str) -> Option<u32>
    ensures { MatchOption result ((count : ℕ) → IsCount count → word.now ≢ decimal count)
        (λ count. (word.now ≡ decimal count) × IsCount count) }
{
    let number = read_number(word.as_bytes(), 1, u64::from(MOST_GIVEN))?;
    Some(number as u32)
}
