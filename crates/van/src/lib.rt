// Labels for the van printer: what folding is, with its laws, and what the van library answers.
#![tactic(auto)]

ghost use Rattle.std.specs.Prelude.{◌≡◌};
ghost use Rattle.van.specs.Said.{packed};
ghost use Rattle.van.specs.declared.Refusal.TheVariants.{Lower};

// Why a call refuses: as the lower library does, or for refusal 21.
#[derive(Clone, Copy)]
pub enum Refusal {
    Lower(refusal::Refusal),
    TooManyLines,
}

// What a call answers: a value, or why it refuses.
pub type Answer = Result<usize, Refusal>;

// A refusal of the lower library.
impl From<refusal::Refusal> for Refusal {
    ghost from_gives = { λ lower own. own ≡ Lower lower };

    fn from(lower: refusal::Refusal) -> Refusal {
        Refusal::Lower(lower)
    }
}

// An answer as the one number that C gets.
pub fn packed_answer(answer: Answer) -> usize
    ensures { result ≡ packed answer }
{
    match answer {
        Ok(value) => refusal::packed_answer(Ok(value)),
        Err(Refusal::Lower(lower)) => refusal::packed_answer(Err(lower)),
        Err(Refusal::TooManyLines) => refusal::word_of(21, 0, 0, 0),
    }
}
