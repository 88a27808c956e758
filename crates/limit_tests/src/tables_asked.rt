// Tables of a day of 1,440 minutes, from windows and distances.
use std::test::Fail;
use tables::bounds::Bounds;
use tables::tables::Table;

// That the point lies between two minutes.
pub(crate) fn window(table: &mut Table, p: usize, earliest: i32, latest: i32) {
    table.lower(0, p, latest);
    table.lower(p, 0, earliest.saturating_neg());
}

// A table of so many points, open but for the horizon.
pub(crate) fn open_table(points: usize) -> Result<Table, Fail> {
    Table::new(points, 1_440).ok_or_else(|| Fail::new("no such table"))
}

// The greatest sound table below.
pub(crate) fn closed(table: &Table) -> Result<Table, Fail> {
    table.closed().ok_or_else(|| Fail::new("no sound table"))
}

// No bounds yet, between as many points.
pub(crate) fn no_bounds(table: &Table) -> Result<Bounds, Fail> {
    Bounds::new(table.points()).ok_or_else(|| Fail::new("too many points"))
}
