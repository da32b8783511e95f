// Questions before an answer: a refusal is the question that was answered with no. Each has the number that C is given.
// A row of questions is asked in its order, and the first no decides.
#![tactic(auto)]

ghost use Rattle.std.specs.Prelude.{◌≡◌, [], ◌∷◌, Ok, pos};
ghost use Rattle.asking.specs.Asking.{ask, asked, number};

// The numbers of ordered_questions in include/ordered.h, in its order.
#[derive(Clone, Copy, Debug, PartialEq, Eq)]
pub enum Refusal {
    Kind = 1,
    Operation = 2,
    Ends = 3,
    Order = 4,
    Duration = 5,
    Hint = 6,
    Limits = 7,
    Value = 8,
    Length = 9,
    Range = 10,
    Room = 11,
    Table = 12,
    WeekDate = 13,
    ExcludedEnd = 14,
    Gap = 15,
    Overlap = 16,
}

impl From<Refusal> for i64 {
    ghost from_gives = { λ q z. z ≡ pos (number q) };

    fn from(q: Refusal) -> i64 {
        q as i64
    }
}

impl From<Refusal> for u64 {
    ghost from_gives = { λ q n. n ≡ number q };

    fn from(q: Refusal) -> u64 {
        q as u64
    }
}

// One question: `ask(q, yes)?` goes on where the answer is yes.
pub fn ask(q: Refusal, yes: bool) -> Result<(), Refusal>
    ensures { result ≡ asked (ask q yes ∷ []) (Ok tt) }
{
    if yes { Ok(()) } else { Err(q) }
}
