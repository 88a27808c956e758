// Stretches of minutes at which a table is sure of the same of all points that the uses name.
ghost use Rattle.std.specs.Prelude.{◌≡◌, ◌<◌, ◌≤◌, pos, MatchOption, int_le};
ghost use Rattle.bunker.specs.Records.{uses_of};
ghost use Rattle.bunker.specs.Stretches.{SameAt, SameFor, LongestFrom};
ghost use Rattle.model.specs.declared.moments.Moment.TheVariants.{Minute};
ghost use Rattle.tables.specs.Views.{table_view};

use crate::bunkers::Bunker;
use model::moments::LAST_MINUTE;
use model::slips::Use;
use tables::tables::Table;

// The minutes from `first` to `last`, all of the longest day.
#[derive(Clone, Copy)]
pub(crate) struct Stretch {
    pub(crate) first: u32,
    pub(crate) last: u32,
    ghost ordered: { first ≤ last },
    ghost in_day: { last ≤ 10080 },
}

impl Stretch {
    ghost use Rattle.bunker.specs.Shortens.{Shortens};

    // The stretch up to the minute before the change, or all of it if the change does not come within it.
    fn before_change(self, change: i32) -> Stretch
        ensures { Shortens (λ k. int_le change (pos self.first) ≡ int_le change (pos k)) self result }
    {
        match u32::try_from(change) {
            Ok(minute) if self.first < minute && minute <= self.last => Stretch {
                first: self.first,
                last: minute - 1,
            },
            _ => self,
        }
    }

    // As much of it as the table is sure of the same of the point p.
    fn before_point(self, table: &Table, p: usize) -> Stretch
        ensures { Shortens (λ k. SameAt (table_view table.now) p (Minute self.first) (Minute k)) self result }
    {
        self.before_change(table.get(0, p))
            .before_change(-table.get(p, 0))
    }

    // As much of it as that holds of both points of the use.
    fn before_use(self, table: &Table, what: Use) -> Stretch
        ensures { Shortens (λ k. SameFor (table_view table.now) what (Minute self.first) (Minute k)) self result }
    {
        self.before_point(table, what.first)
            .before_point(table, what.last)
    }
}

impl Bunker {
    // The longest stretch that begins with `first`, or None past the day.
    fn stretch_from(&self, table: &Table, first: u32) -> Option<Stretch>
        ensures { MatchOption result (10080 < first) (λ s. (s.first ≡ first) × LongestFrom (table_view table.now) (uses_of self.now) first s.last) }
    {
        if first > LAST_MINUTE {
            return None;
        }
        let mut stretch = Stretch {
            first,
            last: LAST_MINUTE,
        };
        // no proof was found for a fold over the uses
        for x in self.uses.as_slice() {
            stretch = stretch.before_use(table, x.what);
        }
        Some(stretch)
    }

    // The longest stretches of the day, one behind the other.
    pub(crate) fn stretches<'a>(&'a self, table: &'a Table) -> Stretches<'a>
        ensures bunker { result.bunker.now ≡ self.now }
        ensures table { result.table.now ≡ table.now }
        ensures first { result.first ≡ 0 }
    {
        Stretches {
            bunker: self,
            table,
            first: 0,
        }
    }
}

// The longest stretches from the minute `first` on.
#[derive(Drop)]
pub(crate) struct Stretches<'a> {
    bunker: &'a Bunker,
    table: &'a Table,
    first: u32,
    ghost in_day: { first ≤ 10081 },
}

impl Iterator for Stretches<'_> {
    ghost use Rattle.std.specs.Prelude.{◌-◌};
    ghost use Rattle.std.specs.Iterator.{at_most};
    ghost use Rattle.bunker.specs.NextStretch.{NextStretch};

    type Item = Stretch;

    ghost next_gives = { NextStretch };

    ghost remaining = { λ s. at_most (10081 - s.first) };

    fn next(&mut self) -> Option<Stretch> {
        let stretch = self.bunker.stretch_from(self.table, self.first)?;
        self.first = stretch.last + 1;
        Some(stretch)
    }
}
