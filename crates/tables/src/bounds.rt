// Bounds between points, while they are gathered.
ghost use Rattle.std.specs.Prelude.{◌≤◌};
ghost use Rattle.tables.specs.Rows.{RowsWithin};

use crate::tables::LOWEST;
use model::labels::MOST_POINTS;
use model::moments::LAST_MINUTE;

mod access;
mod relax;

// What stands for a pair without a bound: no two points of a day are further apart. A constant calls no conversion, so it casts.
pub(crate) const NO_BOUND: i16 = LAST_MINUTE as i16;

// The least bound: one below each entry of a table.
pub(crate) const LOWEST_BOUND: i32 = LOWEST - 1;

// For each pair of points the least bound given so far, from -10,081 to 10,080. What clauses see of it is a function of two points, which
// no `Model` can have as its value, so they say `bounds_view`.
#[derive(Clone, Copy)]
pub struct Bounds {
    points: usize,
    // the bound from i to j stands in row i at j; there is room for 64 points, so that no call needs memory
    entries: [[i16; MOST_POINTS]; MOST_POINTS],
    ghost few: { points ≤ 64 },
    ghost within: { RowsWithin 64 entries },
}

// No table is below the bounds.
#[derive(Clone, Copy, Debug)]
pub struct NoTable;
