// A bunker as a rule.
ghost use Rattle.bunker_laws.specs.Bunkers.{meaning as bunkerMeaning};
ghost use Rattle.bunker.specs.Records.{bunker_uses};
ghost use Rattle.bunker_laws.proofs.Lawful.{bunker_lawful};
ghost use Rattle.std.proofs.Common.{rules};

use crate::bunkers::Bunker;
use crate::moments::TableAt;
use bunker_laws::settings::Settings;
use model::moments::Moment;
use rules::rule::Rule;
use tables::bounds::Bounds;
use tables::tables::Table;

impl Rule for Bunker {
    type Settings = Settings;

    ghost settings = { λ x. x.settings };

    ghost uses = { bunker_uses };

    ghost width = { λ _. 1 };

    ghost meaning = { bunkerMeaning };

    ghost lawful = { λ s us. bunker_lawful s us };

    ghost beyond = { Prim.search rules };

    fn past(&self, place: usize) -> Option<usize> {
        place.checked_sub(1)
    }

    fn refuses(&self, table: &Table) -> bool {
        self.rejects(table)
    }

    fn vouches(&self, table: &Table) -> bool {
        self.approves(table)
    }

    fn lower(&self, table: &Table, bounds: &mut Bounds) {
        self.propagate(table, bounds);
    }

    fn levels(&self, table: &Table, place: usize, at: Moment) -> Option<(i32, i32)> {
        if place > 0 {
            return None;
        }
        let levels = self.profile(TableAt { table, at }).levels;
        Some((levels.highest, levels.lowest))
    }
}
