// A pair is a rule where its parts are, and a limit where they are. Each call on a place is a match: the parts differ in type, so
// a method that picked the part would take a closure for each.
ghost use Rattle.std.specs.Prelude.{◌+◌};
ghost use Rattle.model.specs.Limits.{of_part};
ghost use Rattle.model.specs.Meanings.{both};
ghost use Rattle.model.specs.Uses.{joined, front, back};
ghost use Rattle.model.proofs.Pairs.{both_lawful};
ghost use Rattle.std.proofs.Common.{rules};

use crate::limit::Limit;
use crate::pair::Pair;
use crate::rule::Rule;
use model::moments::Moment;
use model::refusals::Refusal;
use model::slips::{MOST_PLACES, Use};
use tables::bounds::Bounds;
use tables::tables::Table;

impl<A: Rule, B: Rule> Rule for Pair<A, B> {
    type Settings = (A::Settings, B::Settings);

    ghost settings = { λ x. (A.Rule.settings x.left, B.Rule.settings x.right) };

    ghost uses = { λ x. joined (A.Rule.width (A.Rule.settings x.left)) (A.Rule.uses x.left) (B.Rule.uses x.right) };

    ghost width = { λ s. A.Rule.width s.0 + B.Rule.width s.1 };

    ghost meaning = { λ s us. both (A.Rule.width s.0) (A.Rule.meaning s.0 (front (A.Rule.width s.0) us)) (B.Rule.meaning s.1 (back (A.Rule.width s.0) us)) };

    ghost lawful = { λ s us. both_lawful (A.Rule.width s.0) us _ _ (A.Rule.lawful s.0 _) (B.Rule.lawful s.1 _) };

    ghost beyond = { Prim.search rules };

    fn past(&self, place: usize) -> Option<usize> {
        self.right.past(self.left.past(place)?)
    }

    fn refuses(&self, table: &Table) -> bool {
        self.left.refuses(table) || self.right.refuses(table)
    }

    fn vouches(&self, table: &Table) -> bool {
        self.left.vouches(table) && self.right.vouches(table)
    }

    fn lower(&self, table: &Table, bounds: &mut Bounds) {
        self.left.lower(table, bounds);
        self.right.lower(table, bounds);
    }

    fn levels(&self, table: &Table, place: usize, at: Moment) -> Option<(i32, i32)> {
        if place >= MOST_PLACES {
            return None;
        }
        match self.left.past(place) {
            None => self.left.levels(table, place, at),
            Some(rest) => self.right.levels(table, rest, at),
        }
    }
}

impl<A: Limit, B: Limit> Limit for Pair<A, B> {
    ghost most = { λ s. of_part (A.Rule.width s.0) (A.Limit.most s.0) (B.Limit.most s.1) };

    ghost form = { λ s. of_part (A.Rule.width s.0) (A.Limit.form s.0) (B.Limit.form s.1) };

    ghost few = { Prim.search rules };

    fn places(&self) -> usize {
        MOST_PLACES.min(self.left.places() + self.right.places())
    }

    fn most_uses(&self, place: usize) -> usize {
        match self.left.past(place) {
            None => self.left.most_uses(place),
            Some(rest) => self.right.most_uses(rest),
        }
    }

    fn any_use(&self) -> bool {
        self.left.any_use() || self.right.any_use()
    }

    fn take(&mut self, place: usize, number: u32, what: Use) -> Result<(), Refusal> {
        if place >= MOST_PLACES {
            return Err(Refusal::NoPlace);
        }
        match self.left.past(place) {
            None => self.left.take(place, number, what),
            Some(rest) => self.right.take(rest, number, what),
        }
    }

    fn give_up(&mut self, place: usize, number: u32) -> Result<(), Refusal> {
        if place >= MOST_PLACES {
            return Err(Refusal::NoPlace);
        }
        match self.left.past(place) {
            None => self.left.give_up(place, number),
            Some(rest) => self.right.give_up(rest, number),
        }
    }
}
