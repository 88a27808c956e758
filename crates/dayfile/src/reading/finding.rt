// The first fault of a day.
ghost use Rattle.std.specs.Prelude.{◌≡◌};
ghost use Rattle.dayfile.specs.Reading.{first_fault};
ghost use Rattle.dayfile.specs.Views.{read_of};

use super::Reading;
use crate::faults::{DayFile, Fault};
use model::refusals::Refusal;

impl Reading<'_> {
    // The first fault of the day, given what refuses the first and the second bunker, and which call is refused first. The lines of
    // these come before the fault at which reading ended.
    pub fn first_fault(
        &self,
        first: Option<Refusal>,
        second: Option<Refusal>,
        call: Option<(usize, Refusal)>,
    ) -> Option<Fault>
        ensures { result ≡ first_fault (read_of self.now) first second call }
    {
        // a `match`: of a chain of `map` and `or` the check finds no proof
        let found = match (first, second, call) {
            (Some(refusal), _, _) => Some(DayFile::Hall.line(2).fault(refusal)),
            (None, Some(refusal), _) => Some(DayFile::Hall.line(3).fault(refusal)),
            (None, None, Some((i, refusal))) => self.places.get(i).map(|at| at.fault(refusal)),
            (None, None, None) => None,
        };
        found.or(self.fault)
    }
}
