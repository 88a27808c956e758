// Relaxing bounds through a point: each is lowered to the way over that point.
ghost use Rattle.std.specs.Prelude.{◌≡◌, ◌↔◌, ◌<◌, ◌≤◌, length, pos, ◌≤ℤ◌, IsOk, OnOk, fold};
ghost use Rattle.std.specs.Int.{int_min};
ghost use Rattle.tables.specs.Rows.{Within, RowsWithin, LongWays, Relaxes, LongRows, RelaxesRows};
ghost use Rattle.tables.specs.Views.{bounds_view};
ghost use Rattle.tables.specs.Ways.{LongThrough, Through};

use super::{Bounds, NO_BOUND, NoTable};
use crate::tables::LOWEST;
use model::labels::MOST_POINTS;

impl Bounds {
    // Lowers each bound to the way over k. Fails where such a way is below -10,080, which no table holds.
    #[tactic(auto, using(crate::proofs::Relaxed::row_long), unfolding(crate::specs::Entries::bounds_view))]
    pub(crate) fn relax_through(&mut self, k: usize) -> Result<(), NoTable>
        requires { k < (bounds_view self.old).points }
        ensures test { IsOk result ↔ LongThrough k (bounds_view self.old).points (bounds_view self.old) }
        ensures after { OnOk result (Through k (bounds_view self.old).points (bounds_view self.old) (bounds_view self.new)) }
    {
        let points = self.points;
        let over = self.entries[k];
        relax_rows(&mut self.entries, k, &over[..points])
    }
}

// Lowers the rows of as many points as `over` tells of to the ways that go to k first, and then as `over` tells.
fn relax_rows(
    rows: &mut [[i16; MOST_POINTS]; MOST_POINTS],
    k: usize,
    over: &[i16],
) -> Result<(), NoTable>
    requires through { k < length over.now }
    requires few { length over.now ≤ 64 }
    requires within { RowsWithin 64 rows.old }
    requires over { Within over.now }
    ensures kept { RowsWithin 64 rows.new }
    ensures test { IsOk result ↔ LongRows k over.now (length over.now) rows.old }
    ensures after { OnOk result (RelaxesRows k over.now (length over.now) rows.old rows.new) }
{
    let shortest = shortest(over);
    for row in &mut rows[..over.len()] {
        let first = row[k];
        if i32::from(first) + i32::from(shortest) < LOWEST {
            return Err(NoTable);
        }
        relax_row(row, first, over);
    }
    Ok(())
}

// The least of the entries and 10,080.
fn shortest(over: &[i16]) -> i16
    ensures { result ≡ fold int_min (pos 10080) over.now }
{
    let mut least = NO_BOUND;
    // a `fold` here leaves a goal about casts without a proof
    for rest in over {
        least = least.min(*rest);
    }
    least
}

// Lowers the entries of a row to the ways to them: `first`, and then as `over` tells.
fn relax_row(row: &mut [i16; MOST_POINTS], first: i16, over: &[i16])
    requires few { length over.now ≤ 64 }
    requires low { LongWays first over.now }
    requires high { first ≤ℤ pos 10080 }
    requires over { Within over.now }
    ensures { Relaxes first over.now (length over.now) row.old row.new }
{
    // after a `zip` with `row.iter_mut()` the proof does not know what was written
    for (j, rest) in over.iter().enumerate() {
        row[j] = row[j].min(first + rest);
    }
}
