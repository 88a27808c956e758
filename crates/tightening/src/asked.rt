// A table lowered to what slips and bounds ask for.
ghost use Rattle.std.specs.Prelude.{◌≡◌, negsuc, ◌<ℤ◌, Decides, MatchResult};
ghost use Rattle.model.specs.Narrowings.{Narrowed};
ghost use Rattle.tables.specs.Views.{bounds_view, table_view, lowered};
ghost use Rattle.tightening.specs.Asked.{distances, TooLow, Posts, RowBounds, RowsBounds, RowTooLow, RowsTooLow, RowRests, RowsRest};

use model::slips::Distance;
use register::records::Numbered;
use tables::bounds::{Bounds, NoTable};
use tables::tables::{LOWEST, Table};

// Lowers the entry at (i, j) to v where it is above, or fails where v is less than a table holds.
fn ask(table: &mut Table, i: usize, j: usize, v: i32) -> Result<(), NoTable>
    ensures { MatchResult result (λ _. table_view table.new ≡ lowered (table_view table.old) i j v) (λ _. v <ℤ negsuc 10079) }
{
    if v < LOWEST {
        return Err(NoTable);
    }
    table.lower(i, j, v);
    Ok(())
}

// Lowers each entry to the least that the slips ask for its pair, or fails where one asks for less than a table holds.
pub(crate) fn post_slips(table: &mut Table, slips: &[Numbered<Distance>]) -> Result<(), NoTable>
    ensures { MatchResult result (λ _. Narrowed (Posts (distances slips.now)) (table_view table.old) (table_view table.new)) (λ _. TooLow (distances slips.now)) }
{
    for slip in slips {
        let distance = slip.what;
        ask(table, distance.from, distance.to, distance.minutes)?;
    }
    Ok(())
}

// Whether no bound from i is below its entry.
fn row_rests(table: &Table, bounds: &Bounds, i: usize) -> bool
    ensures { Decides result (RowRests (table_view table.now) (bounds_view bounds.now) i (table_view table.now).points) }
{
    (0..table.points()).all(|j| bounds.get(i, j) >= table.get(i, j))
}

// Whether no bound is below its entry.
pub(crate) fn rests(table: &Table, bounds: &Bounds) -> bool
    ensures { Decides result (RowsRest (table_view table.now) (bounds_view bounds.now) (table_view table.now).points (table_view table.now).points) }
{
    (0..table.points()).all(|i| row_rests(table, bounds, i))
}

// Lowers the entries from i to the bounds, or fails where one is less than a table holds.
fn meet_row(table: &mut Table, bounds: &Bounds, i: usize) -> Result<(), NoTable>
    ensures { MatchResult result (λ _. Narrowed (RowBounds (bounds_view bounds.now) i (table_view table.old).points) (table_view table.old) (table_view table.new)) (λ _. RowTooLow (bounds_view bounds.now) i (table_view table.old).points) }
{
    // a point is a number, and each turn writes the table
    for j in 0..table.points() {
        ask(table, i, j, bounds.get(i, j))?;
    }
    Ok(())
}

// Lowers all entries to the bounds, or fails where one is less than a table holds.
pub(crate) fn meet(table: &mut Table, bounds: &Bounds) -> Result<(), NoTable>
    ensures { MatchResult result (λ _. Narrowed (RowsBounds (bounds_view bounds.now) (table_view table.old).points (table_view table.old).points) (table_view table.old) (table_view table.new)) (λ _. RowsTooLow (bounds_view bounds.now) (table_view table.old).points) }
{
    // a point is a number, and each turn writes the table
    for i in 0..table.points() {
        meet_row(table, bounds, i)?;
    }
    Ok(())
}
