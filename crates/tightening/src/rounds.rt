// One round of tightening.
ghost use Rattle.std.specs.Prelude.{MatchOption};
ghost use Rattle.tables.specs.Views.{table_view};
ghost use Rattle.tightening.specs.Meant.{meaning_of};
ghost use Rattle.tightening.specs.Rounds.{Ends, Rounded};

use crate::asked::{meet, rests};
use rules::rule::Rule;
use tables::tables::Table;

// What a round leaves.
#[derive(Clone, Copy)]
pub(crate) enum Round {
    // the limits ask for nothing more of this table
    Rest(Table),
    // they ask for more, and this is what is left to try
    Lower(Table),
}

// Closes the table and asks the limits. None where no table below is closed.
pub(crate) fn next_round<L: Rule>(limits: &L, table: &Table) -> Option<Round>
    ensures { MatchOption result (Ends (L.uses limits.now) (meaning_of L.Rule limits.now) (table_view table.now)) (Rounded (L.uses limits.now) (meaning_of L.Rule limits.now) (table_view table.now)) }
{
    let closed = table.closed()?;
    if limits.refuses(&closed) {
        return None;
    }
    let mut bounds = closed.to_bounds();
    limits.lower(&closed, &mut bounds);
    if rests(&closed, &bounds) {
        return Some(Round::Rest(closed));
    }
    let mut lower = closed;
    meet(&mut lower, &bounds).ok()?;
    Some(Round::Lower(lower))
}
