// A whole run: a sheet is ruled and a list of calls made on it.
ghost use Rattle.std.specs.Prelude.{◌≡◌, IfOk, MatchResult};
ghost use Rattle.runs.specs.Days.{after};
ghost use Rattle.runs.specs.Promise.{Promise};
ghost use Rattle.runs.specs.Runs.{Settled};
ghost use Rattle.sheet.specs.Replies.{FirstRefused, AnsweredFor};
ghost use Rattle.sheet.specs.Rulings.{NotRuledOver, ruled_day};
ghost use Rattle.sheet.specs.Sheets.{points_of, shown_of, sheet_day, takes_of};

use crate::replies::Told;
use crate::sheets::{NotRuled, Sheet};
use rules::limit::Limit;
use rules::rule::Rule;
use runs::calls::Call;
use std::alloc::Global;

// The sheet after a run, and what is told of its calls.
#[derive(Drop)]
pub struct Played<L> {
    pub sheet: Sheet<L>,
    pub told: Told,
}

// Rules a sheet over limits in which no use stands, and makes the calls one after another. Whatever the calls are, and whichever of
// them are refused, the sheet keeps its promise.
pub fn run<L: Limit>(
    heap: Global,
    limits: L,
    horizon: u32,
    calls: &[Call<'_>],
) -> Result<Played<L>, NotRuled<L>>
    ensures promise { MatchResult result (λ x. Promise (takes_of L.Limit) L.Rule.meaning horizon (L.Rule.settings limits) (L.Rule.uses limits) calls.now (shown_of x.sheet)) (NotRuledOver L.Limit horizon limits) }
    ensures day { IfOk result (λ x. sheet_day L.Limit x.sheet ≡ after (takes_of L.Limit) (ruled_day L.Limit horizon limits) calls.now) }
    ensures refused { IfOk result (λ x. FirstRefused (takes_of L.Limit) (ruled_day L.Limit horizon limits) calls.now x.told.refused) }
    ensures answer { IfOk result (λ x. Settled (takes_of L.Limit) (ruled_day L.Limit horizon limits) calls.now → AnsweredFor (points_of x.sheet) (shown_of x.sheet) x.told.answer) }
{
    let mut sheet = Sheet::rule(heap, limits, horizon)?;
    let told = sheet.play(calls);
    Ok(Played { sheet, told })
}
