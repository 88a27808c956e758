// What a tightened sheet says of the plans within its bounds.
ghost use Rattle.std.specs.Prelude.{◌≡◌, Some};
ghost use Rattle.model.specs.Verdicts.{word_of};

use std::fmt;

#[derive(Clone, Copy, Debug, PartialEq, Eq)]
pub enum Verdict {
    // no table is closed, so no plan obeys the sheet
    NoPlan,
    // the limits may still turn away some plan within the bounds
    Open,
    // every limit vouches for the bounds: each plan within them obeys the sheet
    AnyPlan,
}

impl Verdict {
    // The word for it in the output of a day.
    pub fn word(self) -> &'static str
        ensures { result.now ≡ word_of self }
    {
        match self {
            Verdict::NoPlan => "noplan",
            Verdict::Open => "open",
            Verdict::AnyPlan => "any",
        }
    }
}

impl fmt::Display for Verdict {
    ghost output = { λ v. Some (word_of v) };

    fn fmt<W: fmt::Write>(&self, f: &mut fmt::Formatter<W>) -> fmt::Result {
        f.write_str(self.word())
    }
}
