// The greatest closed table of a day.
ghost use Rattle.std.specs.Prelude.{◌≡◌, ◌<◌, ◌≤◌, ◌⊎◌, IfSome, MatchOption};
ghost use Rattle.model.specs.Closed.{SlipsHeld, NoneClosed, Tightened};
ghost use Rattle.model.specs.Narrowings.{Narrowed};
ghost use Rattle.promise_laws.specs.Held.{UsesHeld};
ghost use Rattle.register.specs.Standing.{items_of, stands};
ghost use Rattle.tables.specs.Views.{table_view, start_view};
ghost use Rattle.tightening.specs.Asked.{distances, TooLow, Posts};
ghost use Rattle.tightening.specs.Meant.{meaning_of};

use crate::asked::post_slips;
use crate::rounds::{Round, next_round};
use model::slips::Distance;
use register::registers::Register;
use rules::rule::Rule;
use tables::tables::Table;

// The table that the horizon and the slips ask for, or None where no table holds what they ask for.
fn start<const MOST: usize>(
    horizon: u32,
    points: usize,
    slips: &Register<Distance, MOST>,
) -> Option<Table>
    ensures { MatchOption result ((points ≡ 0) ⊎ (64 < points) ⊎ (10080 < horizon) ⊎ TooLow (distances (items_of slips.now))) (λ t. Narrowed (Posts (distances (items_of slips.now))) (start_view points horizon) (table_view t)) }
{
    let mut table = Table::new(points, horizon)?;
    post_slips(&mut table, slips.as_slice()).ok()?;
    Some(table)
}

// The greatest closed table of a day of so many minutes and points, with its standing distance slips and its limits, or None where
// no table is closed. `greatest` speaks of days of up to 64 points and 10,080 minutes, whose slips and uses name points of the day.
pub fn tightened<L: Rule, const MOST: usize>(
    limits: &L,
    horizon: u32,
    points: usize,
    slips: &Register<Distance, MOST>,
) -> Option<Table>
    ensures points { IfSome result (λ t. (table_view t).points ≡ points) }
    ensures greatest { points ≤ 64 → horizon ≤ 10080 → UsesHeld points (L.Rule.uses limits.now) → SlipsHeld points (stands slips.now) → MatchOption result (NoneClosed horizon points (stands slips.now) (meaning_of L.Rule limits.now)) (λ t. Tightened horizon points (stands slips.now) (meaning_of L.Rule limits.now) (table_view t)) }
{
    let mut table = start(horizon, points, slips)?;
    loop {
        match next_round(limits, &table)? {
            Round::Rest(found) => return Some(found),
            Round::Lower(lower) => table = lower,
        }
    }
}
