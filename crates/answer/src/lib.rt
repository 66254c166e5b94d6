// The answers of document 01, 'One turn and its answer', less one that no call gives (document 02, A7).

#![tactic(auto)]

// What a call comes to, with its number in document 01.
#[derive(Clone, Copy, PartialEq, Eq)]
pub enum Answer {
    Finished = 0,
    Paused = 1,
    Illegal = 2,
    LoadMisaligned = 4,
    LoadAccess = 5,
    StoreMisaligned = 6,
    StoreAccess = 7,
    BadRegisters = 32,
    BadScalars = 33,
    BadMemory = 34,
    BadRights = 35,
    BadControl = 36,
    NoGroup = 38,
}

impl Answer {
    ghost use Rattle.std.specs.Prelude.{◌≡◌};
    ghost use Rattle.answer.specs.Answer.{answer_of};

    // Of a call that gives a value or is refused.
    pub fn of<T: Copy>(outcome: Result<T, Answer>) -> Answer
        ensures { result ≡ answer_of outcome }
    {
        match outcome {
            Ok(_) => Answer::Finished,
            Err(refused) => refused,
        }
    }
}

impl From<Answer> for u64 {
    ghost use Rattle.std.specs.Prelude.{◌≡◌};
    ghost use Rattle.answer.specs.Answer.{number_of};

    ghost from_gives = { λ answer number. number ≡ number_of answer };

    fn from(answer: Answer) -> u64 {
        answer as u64
    }
}
