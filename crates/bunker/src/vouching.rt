// Whether a bunker vouches for a table.
ghost use Rattle.bunker_laws.specs.Bunkers.{Vouches};
ghost use Rattle.bunker.specs.Records.{uses_of, told};
ghost use Rattle.bunker.specs.Rooms.{Room, RoomAround, RoomPoints, Ordered, AllOrdered};
ghost use Rattle.std.specs.Prelude.{Decides};
ghost use Rattle.tables.specs.Views.{table_view};

use crate::bunkers::Bunker;
use crate::moments::TableAt;
use crate::options::is_delivery;
use model::moments::Moment;
use model::slips::Use;
use tables::tables::Table;

// Whether the use, if it is a loan, is sure to end no earlier than it begins.
fn is_ordered(table: &Table, what: Use) -> bool
    ensures { Decides result (Ordered (table_view table.now) what) }
{
    is_delivery(what) || table.get(what.last, what.first) <= 0
}

impl Bunker {
    // Whether each level at the moment lies between floor and roof. The table and the moment come apart, as where it is refused.
    fn has_room(&self, table: &Table, at: Moment) -> bool
        ensures { Decides result (told Room self.now table.now at) }
    {
        self.profile(TableAt { table, at })
            .levels
            .fit(self.settings)
    }

    // Whether that holds of both points of the use.
    fn has_room_around(&self, table: &Table, what: Use) -> bool
        ensures { Decides result (told RoomAround self.now table.now what) }
    {
        self.has_room(table, Moment::Point(what.first))
            && self.has_room(table, Moment::Point(what.last))
    }

    // Whether it holds of the points of each use.
    fn has_room_at_points(&self, table: &Table) -> bool
        ensures { Decides result (told RoomPoints self.now table.now (uses_of self.now)) }
    {
        let uses = self.uses.as_slice();
        uses.iter().all(|x| self.has_room_around(table, x.what))
    }

    // Whether each loan is in order.
    fn has_order(&self, table: &Table) -> bool
        ensures { Decides result (AllOrdered (table_view table.now) (uses_of self.now)) }
    {
        let uses = self.uses.as_slice();
        uses.iter().all(|x| is_ordered(table, x.what))
    }

    // Whether each plan that meets the table is allowed.
    pub(crate) fn approves(&self, table: &Table) -> bool
        ensures { Decides result (told Vouches self.now table.now) }
    {
        self.has_order(table) && self.has_room_at_points(table)
    }
}
