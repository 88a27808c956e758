// What the calls on a sheet answer, as values.
ghost use Rattle.std.specs.Prelude.{◌≡◌};
ghost use Rattle.sheet.specs.Replies.{refusal_of, answer_of};

use model::refusals::Refusal;
use runs::answers::Answer;

// The answer of one call.
#[derive(Clone, Copy)]
pub enum Reply {
    // of a naming: the point's number
    Named(Result<usize, Refusal>),
    // of a posting or a withdrawal
    Changed(Result<(), Refusal>),
    // of a tightening
    Tightened(Answer),
    // of a look at a bound
    Bound(Result<i32, Refusal>),
    // of a look at levels
    Levels(Result<Option<(i32, i32)>, Refusal>),
}

// What is told of a list of calls: the first naming, posting or withdrawal that was refused, by its place in the list, and the answer
// of the last tightening.
#[derive(Clone, Copy)]
pub struct Told {
    pub refused: Option<(usize, Refusal)>,
    pub answer: Option<Answer>,
}

impl Reply {
    // Why a naming, a posting or a withdrawal was refused.
    pub fn refusal(self) -> Option<Refusal>
        ensures { result ≡ refusal_of self }
    {
        match self {
            Reply::Named(result) => result.err(),
            Reply::Changed(result) => result.err(),
            _ => None,
        }
    }

    // What a tightening answered.
    pub fn answer(self) -> Option<Answer>
        ensures { result ≡ answer_of self }
    {
        match self {
            Reply::Tightened(answer) => Some(answer),
            _ => None,
        }
    }
}
