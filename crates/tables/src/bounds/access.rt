// Making bounds, reading them and lowering one.
#![tactic(auto, using(std::proofs::lemmas::Bool::Decides::nat_tests), unfolding(crate::specs::Entries::bounds_view))]

ghost use Rattle.std.specs.Prelude.{◌≡◌, ◌<◌, ◌≤◌, pos, negsuc, ◌≤ℤ◌, ◌<ℤ◌, Decides, MatchOption};
ghost use Rattle.std.specs.Int.{int_max};
ghost use Rattle.tables.specs.Views.{bounds_view, even_view, open_view, lowered};

use super::{Bounds, LOWEST_BOUND, NO_BOUND};
use model::labels::MOST_POINTS;

impl Bounds {
    // No bound between any two of the points, of which there may be 64.
    pub fn new(points: usize) -> Option<Bounds>
        ensures { MatchOption result (64 < points) (λ b. (points ≤ 64) × (bounds_view b ≡ open_view points)) }
    {
        if points > MOST_POINTS {
            return None;
        }
        Some(Bounds::even(points, NO_BOUND))
    }

    // The same bound for every pair.
    pub(crate) fn even(points: usize, bound: i16) -> Bounds
        requires few { points ≤ 64 }
        requires low { negsuc 10080 ≤ℤ bound }
        requires high { bound ≤ℤ pos 10080 }
        ensures { bounds_view result ≡ even_view points bound }
    {
        Bounds {
            points,
            entries: [[bound; MOST_POINTS]; MOST_POINTS],
        }
    }

    pub fn points(&self) -> usize
        ensures { result ≡ (bounds_view self.now).points }
    {
        self.points
    }

    // The bound at (i, j), or 10,080 where there is no such pair.
    pub fn get(&self, i: usize, j: usize) -> i32
        ensures { result ≡ (bounds_view self.now).at i j }
    {
        if i < self.points && j < self.points {
            i32::from(self.entries[i][j])
        } else {
            i32::from(NO_BOUND)
        }
    }

    // Whether there is a bound at (i, j), and v is below it.
    pub(crate) fn exceeds(&self, i: usize, j: usize, v: i32) -> bool
        ensures { Decides result ((i < (bounds_view self.now).points) × (j < (bounds_view self.now).points) × (v <ℤ (bounds_view self.now).at i j)) }
    {
        i < self.points && j < self.points && v < self.get(i, j)
    }

    // Lowers the bound at (i, j) to v where it is above; a v below -10,081 counts as that.
    pub fn lower(&mut self, i: usize, j: usize, v: i32)
        ensures { bounds_view self.new ≡ lowered (bounds_view self.old) i j (int_max v (negsuc 10080)) }
    {
        if self.exceeds(i, j, v) {
            // no From leads from i32 to i16; the check shows that nothing is lost
            self.entries[i][j] = v.max(LOWEST_BOUND) as i16;
        }
    }
}
