// The bounds that a use be active or idle at a moment.
ghost use Rattle.std.specs.Prelude.{◌≡◌, ◌≤◌};
ghost use Rattle.bunker_laws.specs.Bunkers.{ByBound, AfterBound};
ghost use Rattle.bunker.specs.Following.{minute_named, ActiveBounds, IdleBounds, OrderBound};
ghost use Rattle.tables.specs.Views.{table_view, Lowers};

use crate::moments::TableAt;
use crate::options::is_delivery;
use model::moments::Moment;
use model::slips::Use;
use tables::bounds::Bounds;
use tables::tables::Table;

// A table at a moment of the longest day.
#[derive(Clone, Copy)]
pub(crate) struct TableInDay<'a> {
    pub(crate) here: TableAt<'a>,
    ghost in_day: { minute_named here.at ≤ 10080 },
}

impl<'a> TableInDay<'a> {
    pub(crate) fn new(table: &'a Table, at: Moment) -> TableInDay<'a>
        requires { minute_named at ≤ 10080 }
        ensures table { result.here.table.now ≡ table.now }
        ensures at { result.here.at ≡ at }
    {
        TableInDay {
            here: TableAt { table, at },
        }
    }

    // Asks that the point p come no later than the moment.
    fn require_by(self, p: usize, bounds: &mut Bounds)
        ensures { Lowers (ByBound p self.entry.here.at) bounds.old bounds.new }
    {
        match self.here.at {
            Moment::Point(q) => bounds.lower(q, p, 0),
            // `as`, since no From leads from u32 to i32; k is at most 10,080
            Moment::Minute(k) => bounds.lower(0, p, k as i32),
        }
    }

    // Asks that it come after the moment.
    fn require_after(self, p: usize, bounds: &mut Bounds)
        ensures { Lowers (AfterBound p self.entry.here.at) bounds.old bounds.new }
    {
        match self.here.at {
            Moment::Point(q) => bounds.lower(p, q, -1),
            // `as`, as above
            Moment::Minute(k) => bounds.lower(p, 0, -1 - k as i32),
        }
    }

    // Asks that the use be active at the moment: a delivery done, a loan out.
    pub(crate) fn require_active(self, what: Use, bounds: &mut Bounds)
        ensures { Lowers (ActiveBounds self.entry.here.at what) bounds.old bounds.new }
    {
        self.require_by(what.first, bounds);
        if !is_delivery(what) {
            self.require_after(what.last, bounds);
        }
    }

    // Asks that the use be idle at the moment: a delivery due; a loan that ends after it not begun, one that began by it over.
    pub(crate) fn require_idle(self, what: Use, bounds: &mut Bounds)
        ensures { Lowers (IdleBounds (table_view self.entry.here.table.now) self.entry.here.at what) bounds.old bounds.new }
    {
        let delivery = is_delivery(what);
        if delivery || self.here.sure_after(what.last) {
            self.require_after(what.first, bounds);
        }
        if !delivery && self.here.sure_by(what.first) {
            self.require_by(what.last, bounds);
        }
    }
}

// Asks that a loan end no earlier than it begins.
pub(crate) fn require_order(what: Use, bounds: &mut Bounds)
    ensures { Lowers (OrderBound what) bounds.old bounds.new }
{
    if !is_delivery(what) {
        bounds.lower(what.last, what.first, 0);
    }
}
