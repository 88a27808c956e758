// The closure of a table.
ghost use Rattle.std.specs.Prelude.{◌<◌, MatchOption, MatchResult};
ghost use Rattle.tables.specs.Closures.{Greatest, NoneUnder};
ghost use Rattle.tables.specs.Views.{bounds_view, table_view};
ghost use Rattle.tables.specs.Ways.{Settles};

use super::Table;
use crate::bounds::{Bounds, NoTable};
use model::labels::MOST_POINTS;

impl Table {
    // The greatest sound table below this one, or None where there is none.
    #[tactic(auto, using(crate::proofs::Entries::points_few, crate::proofs::Closing::closing_none))]
    pub fn closed(&self) -> Option<Table>
        ensures { MatchOption result (NoneUnder (table_view self.now)) (λ t. Greatest (table_view self.now) (table_view t)) }
    {
        let mut bounds = self.bounds;
        for (k, settled) in self.settled[..bounds.points()].iter().enumerate() {
            if !settled {
                settle(&mut bounds, k).ok()?;
            }
        }
        Some(Table {
            bounds,
            settled: [true; MOST_POINTS],
        })
    }
}

// Closes bounds through k; fails where no sound table is below them.
fn settle(bounds: &mut Bounds, k: usize) -> Result<(), NoTable>
    requires { k < (bounds_view bounds.old).points }
    ensures { MatchResult result (λ _. Settles k (bounds_view bounds.old) (bounds_view bounds.new)) (λ _. NoneUnder (bounds_view bounds.old)) }
{
    if bounds.get(k, k) < 0 {
        return Err(NoTable);
    }
    bounds.relax_through(k)
}
