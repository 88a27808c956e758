// Whether a bunker refuses a table.
ghost use Rattle.std.specs.Prelude.{◌⊎◌, Decides};
ghost use Rattle.bunker_laws.specs.Bunkers.{Refuses};
ghost use Rattle.bunker.specs.Records.{uses_of, told};
ghost use Rattle.bunker.specs.Rooms.{NoRoom, NoRoomBefore, NoRoomAround, NoRoomPoints, Reversed, SomeReversed};
ghost use Rattle.tables.specs.Views.{table_view};

use crate::bunkers::Bunker;
use crate::moments::TableAt;
use crate::options::is_delivery;
use model::moments::Moment;
use model::slips::Use;
use tables::tables::Table;

// Whether the use is a loan that ends before it begins.
fn is_reversed(table: &Table, what: Use) -> bool
    ensures { Decides result (Reversed (table_view table.now) what) }
{
    !is_delivery(what) && table.get(what.first, what.last) < 0
}

impl Bunker {
    // Whether no level at the moment lies between floor and roof. The table and the moment come apart: each caller has the table, and
    // makes the moment.
    fn lacks_room(&self, table: &Table, at: Moment) -> bool
        ensures { Decides result (told NoRoom self.now table.now at) }
    {
        self.profile(TableAt { table, at })
            .levels
            .miss(self.settings)
    }

    // Whether that holds of some minute. In a stretch of minutes that are alike the first one tells it for all.
    fn lacks_room_at_minute(&self, table: &Table) -> bool
        ensures { Decides result (told NoRoomBefore self.now table.now 10081) }
    {
        self.stretches(table).any(|stretch| self.lacks_room(table, Moment::Minute(stretch.first)))
    }

    // Whether it holds of a point of the use.
    fn lacks_room_around(&self, table: &Table, what: Use) -> bool
        ensures { Decides result (told NoRoomAround self.now table.now what) }
    {
        self.lacks_room(table, Moment::Point(what.first))
            || self.lacks_room(table, Moment::Point(what.last))
    }

    // Whether it holds of a point of some use.
    fn lacks_room_at_point(&self, table: &Table) -> bool
        ensures { Decides result (told NoRoomPoints self.now table.now (uses_of self.now)) }
    {
        let uses = self.uses.as_slice();
        uses.iter().any(|x| self.lacks_room_around(table, x.what))
    }

    // Whether some loan is reversed.
    fn has_reversed(&self, table: &Table) -> bool
        ensures { Decides result (SomeReversed (table_view table.now) (uses_of self.now)) }
    {
        let uses = self.uses.as_slice();
        uses.iter().any(|x| is_reversed(table, x.what))
    }

    // Whether it holds of some moment that a bunker looks at.
    fn lacks_room_somewhere(&self, table: &Table) -> bool
        ensures { Decides result (told NoRoomPoints self.now table.now (uses_of self.now) ⊎ told NoRoomBefore self.now table.now 10081) }
    {
        self.lacks_room_at_point(table) || self.lacks_room_at_minute(table)
    }

    // Whether the table is refused.
    pub(crate) fn rejects(&self, table: &Table) -> bool
        ensures { Decides result (told Refuses self.now table.now) }
    {
        self.has_reversed(table) || self.lacks_room_somewhere(table)
    }
}
