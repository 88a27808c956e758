// Reading a table and lowering one entry.
ghost use Rattle.std.specs.Prelude.{◌≡◌, ◌<◌, false, length, negsuc, if◌then◌else◌, int_le, slice_set};
ghost use Rattle.tables.specs.Views.{table_view, lowered};

use super::{LOWEST, Table};

impl Table {
    pub fn points(&self) -> usize
        ensures { result ≡ (table_view self.now).points }
    {
        self.bounds.points()
    }

    // The entry at (i, j), or 10,080 where there is no such pair.
    pub fn get(&self, i: usize, j: usize) -> i32
        ensures { result ≡ (table_view self.now).at i j }
    {
        self.bounds.get(i, j)
    }

    // Lowers the entry at (i, j) to v where it is above. A v below -10,080, which no table holds, changes nothing.
    pub fn lower(&mut self, i: usize, j: usize, v: i32)
        ensures { table_view self.new ≡ (if int_le (negsuc 10079) v then lowered (table_view self.old) i j v else table_view self.old) }
    {
        if v >= LOWEST && self.bounds.exceeds(i, j, v) {
            self.bounds.lower(i, j, v);
            unsettle(&mut self.settled, i, j);
        }
    }
}

// The points i and j are settled no longer.
fn unsettle(settled: &mut [bool], i: usize, j: usize)
    requires first { i < length settled.old }
    requires second { j < length settled.old }
    ensures { settled.new ≡ slice_set (slice_set settled.old i false) j false }
{
    settled[i] = false;
    settled[j] = false;
}
