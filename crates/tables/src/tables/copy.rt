// Copying the entries of a table.
ghost use Rattle.std.specs.Prelude.{◌≡◌};
ghost use Rattle.tables.specs.Views.{bounds_view, table_view};

use super::Table;
use crate::bounds::Bounds;

impl Table {
    // The entries as bounds, to be lowered further.
    pub fn to_bounds(&self) -> Bounds
        ensures { bounds_view result ≡ table_view self.now }
    {
        self.bounds
    }
}
