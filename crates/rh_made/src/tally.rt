//! What the answers of a report come to.

ghost use Rattle.std.specs.Prelude.{◌≡◌};
ghost use Rattle.rh_made.specs.Sums as seen;

use rh_record::Answer;

/// The bytes of moves, and the rounds of settlings. A sum that passes the greatest number of 64
/// bits stays there.
#[derive(Clone, Copy)]
pub struct Tally {
    /// How many bytes all moves moved.
    pub moved: u64,
    /// How many rounds all settlings had.
    pub rounds: u64,
}

/// How many bytes a move moved; 0 where the answer is to something else.
fn bytes_of(answer: &Answer) -> u64
    ensures { result ≡ seen.bytes_of answer.now }
{
    match answer {
        Answer::Move {
            bytes: Some(bytes),
            ..
        } => bytes.len() as u64,
        _ => 0,
    }
}

/// How many rounds a settling had; 0 where the answer is to something else.
fn rounds_of(answer: &Answer) -> u64
    ensures { result ≡ seen.rounds_of answer.now }
{
    match answer {
        Answer::Quiet(rounds) | Answer::Spent(rounds) => u64::from(*rounds),
        _ => 0,
    }
}

impl Tally {
    ghost use Rattle.rh_made.specs.Tallies.{none, with};

    /// That of no answers.
    pub fn none() -> Tally
        ensures { result ≡ none }
    {
        Tally {
            moved: 0,
            rounds: 0,
        }
    }

    /// Adds these answers.
    pub fn add(&mut self, answers: &[Answer])
        ensures { self.new ≡ with self.old answers.now }
    {
        for answer in answers {
            self.moved = self.moved.saturating_add(bytes_of(answer));
            self.rounds = self.rounds.saturating_add(rounds_of(answer));
        }
    }
}
