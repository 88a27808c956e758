// What a table is sure of at a moment.
ghost use Rattle.std.specs.Prelude.{◌≡◌};
ghost use Rattle.bunker_laws.specs.Bunkers.{sure_by, sure_after};
ghost use Rattle.tables.specs.Views.{table_view};

use model::moments::Moment;
use tables::tables::Table;

// A table at a moment.
#[derive(Clone, Copy)]
pub(crate) struct TableAt<'a> {
    pub(crate) table: &'a Table,
    pub(crate) at: Moment,
}

impl TableAt<'_> {
    // Whether the point p comes no later than the moment in each plan that meets the table.
    pub(crate) fn sure_by(self, p: usize) -> bool
        ensures { result ≡ sure_by (table_view self.entry.table.now) p self.entry.at }
    {
        match self.at {
            Moment::Point(q) => self.table.get(q, p) <= 0,
            Moment::Minute(k) => i64::from(self.table.get(0, p)) <= i64::from(k),
        }
    }

    // Whether it comes after the moment.
    pub(crate) fn sure_after(self, p: usize) -> bool
        ensures { result ≡ sure_after (table_view self.entry.table.now) p self.entry.at }
    {
        match self.at {
            Moment::Point(q) => self.table.get(p, q) < 0,
            Moment::Minute(k) => i64::from(self.table.get(p, 0)) < -i64::from(k),
        }
    }
}
