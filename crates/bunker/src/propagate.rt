// Propagation: the bounds that follow where a floor or a roof rules an option out.
ghost use Rattle.bunker_laws.specs.Bunkers.{Follows, Gives};
ghost use Rattle.bunker.specs.Following.{OrderBounds, FollowsFor, FollowsBefore, FollowsEnds, FollowsPoints};
ghost use Rattle.bunker.specs.Records.{uses_of, told};
ghost use Rattle.bunker.specs.Rooms.{AreLevels};
ghost use Rattle.model.specs.Uses.{In};
ghost use Rattle.tables.specs.Views.{Lowers};

use crate::bunkers::Bunker;
use crate::options::Worth;
use crate::profile::Profile;
use crate::requiring::{TableInDay, require_order};
use crate::stretches::Stretch;
use model::moments::Moment;
use model::slips::Use;
use tables::bounds::Bounds;
use tables::tables::Table;

impl Bunker {
    // What follows for one use at a moment, where this is the profile.
    fn propagate_use(&self, day: TableInDay, profile: Profile, what: Use, bounds: &mut Bounds)
        requires stands { In what (uses_of self.now) }
        requires levels { told AreLevels self.now day.here.table.now day.here.at profile.levels.highest profile.levels.lowest }
        ensures { Lowers (told Follows self.now day.entry.here.table.now day.entry.here.at what) bounds.old bounds.new }
    {
        let options = day.here.options(what);
        let Some(worth) = options.undecided() else {
            return;
        };
        if profile.rules_out(self.settings, options, Worth::IDLE) {
            day.require_active(what, bounds);
        }
        if profile.rules_out(self.settings, options, worth) {
            day.require_idle(what, bounds);
        }
    }

    // What follows for all uses at a moment.
    fn propagate_at(&self, day: TableInDay, bounds: &mut Bounds)
        ensures { Lowers (told FollowsFor self.now day.entry.here.table.now (uses_of self.now) day.entry.here.at) bounds.old bounds.new }
    {
        let profile = self.profile(day.here);
        for x in self.uses.as_slice() {
            self.propagate_use(day, profile, x.what, bounds);
        }
    }

    // What follows at the first and at the last minute of a stretch.
    fn propagate_ends(&self, table: &Table, stretch: Stretch, bounds: &mut Bounds)
        ensures { Lowers (told FollowsEnds self.now table.now stretch.first stretch.last) bounds.old bounds.new }
    {
        self.propagate_at(
            TableInDay::new(table, Moment::Minute(stretch.first)),
            bounds,
        );
        self.propagate_at(TableInDay::new(table, Moment::Minute(stretch.last)), bounds);
    }

    // What follows at every minute. In a stretch of minutes that are alike the first one gives the least bounds that say "by", and
    // the last one the least that say "after".
    fn propagate_minutes(&self, table: &Table, bounds: &mut Bounds)
        ensures { Lowers (told FollowsBefore self.now table.now 10081) bounds.old bounds.new }
    {
        for stretch in self.stretches(table) {
            self.propagate_ends(table, stretch, bounds);
        }
    }

    // What follows at each point that a use names.
    fn propagate_points(&self, table: &Table, bounds: &mut Bounds)
        ensures { Lowers (told FollowsPoints self.now table.now (uses_of self.now)) bounds.old bounds.new }
    {
        for x in self.uses.as_slice() {
            self.propagate_at(TableInDay::new(table, Moment::Point(x.what.first)), bounds);
            self.propagate_at(TableInDay::new(table, Moment::Point(x.what.last)), bounds);
        }
    }

    // The order of each loan.
    fn propagate_order(&self, bounds: &mut Bounds)
        ensures { Lowers (OrderBounds (uses_of self.now)) bounds.old bounds.new }
    {
        for x in self.uses.as_slice() {
            require_order(x.what, bounds);
        }
    }

    // All that follows.
    pub(crate) fn propagate(&self, table: &Table, bounds: &mut Bounds)
        ensures { Lowers (told Gives self.now table.now) bounds.old bounds.new }
    {
        self.propagate_order(bounds);
        self.propagate_points(table, bounds);
        self.propagate_minutes(table, bounds);
    }
}
