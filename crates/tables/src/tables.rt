// Tables of bounds.
ghost use Rattle.std.specs.Prelude.{ℕ, ◌<◌, pos, negsuc, ◌≤ℤ◌};
ghost use Rattle.tables.specs.Entries.{bounds_view};
ghost use Rattle.tables.specs.Ways.{Settled};

use crate::bounds::Bounds;
use model::labels::MOST_POINTS;
use model::moments::LAST_MINUTE;

mod access;
mod close;
mod copy;
mod start;

// No entry of a table is lower. A constant calls no conversion, so it casts.
pub const LOWEST: i32 = -(LAST_MINUTE as i32);

// The most minutes that each point may come after each other. What clauses see of it is a function of two points, which no `Model` can
// have as its value, so they say `table_view`.
#[derive(Clone, Copy)]
pub struct Table {
    bounds: Bounds,
    // the points over which no way is shorter than an entry; there is room for 64, so that no call needs memory
    settled: [bool; MOST_POINTS],
    ghost some: { 0 < (bounds_view bounds).points },
    ghost low: { (i j : ℕ) → negsuc 10079 ≤ℤ (bounds_view bounds).at i j },
    ghost diagonal: { (i : ℕ) → i < (bounds_view bounds).points → (bounds_view bounds).at i i ≤ℤ pos 0 },
    ghost through: { ∥ Settled settled (bounds_view bounds) ∥₁ },
}
