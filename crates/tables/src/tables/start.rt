// The table of a day on which nothing is asked yet.
ghost use Rattle.std.specs.Prelude.{◌≡◌, ◌<◌, ◌≤◌, ◌⊎◌, MatchOption};
ghost use Rattle.tables.specs.Views.{bounds_view, table_view, start_view};

use super::Table;
use crate::bounds::Bounds;
use model::labels::MOST_POINTS;
use model::moments::LAST_MINUTE;

impl Table {
    // No point before point 0, and none more than the horizon after another. A table has 1 to 64 points and a horizon up to 10,080.
    pub fn new(points: usize, horizon: u32) -> Option<Table>
        ensures { MatchOption result ((points ≡ 0) ⊎ ((64 < points) ⊎ (10080 < horizon))) (λ t. (0 < points) × (points ≤ 64) × (horizon ≤ 10080) × (table_view t ≡ start_view points horizon)) }
    {
        if !(1..=MOST_POINTS).contains(&points) || horizon > LAST_MINUTE {
            return None;
        }
        Some(Table {
            bounds: start(points, horizon),
            settled: [true; MOST_POINTS],
        })
    }
}

// Every entry is the horizon, but for 0 from each point to itself and to point 0.
fn start(points: usize, horizon: u32) -> Bounds
    requires few { points ≤ 64 }
    requires near { horizon ≤ 10080 }
    ensures { bounds_view result ≡ start_view points horizon }
{
    // no From leads from u32 to i16; the check shows that nothing is lost
    let mut bounds = Bounds::even(points, horizon as i16);
    // a point is a number, and an entry is named by two
    for p in 0..points {
        bounds.lower(p, p, 0);
        bounds.lower(p, 0, 0);
    }
    bounds
}
