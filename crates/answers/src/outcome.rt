// What came of a question, and the exit status that says so.
ghost use Rattle.std.specs.Prelude.{◌≡◌};
ghost use Rattle.answers.specs.Outcomes.{status_of, worse_of};

// From the best to the worst.
#[derive(Clone, Copy, Debug, PartialEq, Eq, PartialOrd, Ord)]
pub enum Outcome {
    // Accepted, written or answered.
    Answered,
    Refused,
    // Wrong arguments, or a file that cannot be read or written. Standard error has said why.
    Failed,
}

#[tactic(auto, unfolding(crate::specs::Outcomes::status_of))]
pub fn status(outcome: Outcome) -> i32
    ensures { result ≡ status_of outcome }
{
    match outcome {
        Outcome::Answered => 0,
        Outcome::Refused => 1,
        Outcome::Failed => 2,
    }
}

// Of two outcomes the one that matters more.
#[tactic(auto, unfolding(crate::specs::Outcomes::worse_of))]
pub fn worse(a: Outcome, b: Outcome) -> Outcome
    ensures { result ≡ worse_of a b }
{
    a.max(b)
}
