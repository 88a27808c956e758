// A weighbridge as a rule.
ghost use Rattle.weighbridge.specs.Bridges.{bridge_uses};
ghost use Rattle.weighbridge_laws.specs.Weighbridges.{meaning as bridgeMeaning};
ghost use Rattle.weighbridge_laws.proofs.Lawful.{weighbridge_lawful};
ghost use Rattle.std.proofs.Common.{rules};

use crate::conflicts::any_conflict;
use crate::precedence::lower_all;
use crate::separation::all_clear;
use crate::weighbridges::Weighbridge;
use model::moments::Moment;
use rules::rule::Rule;
use tables::bounds::Bounds;
use tables::tables::Table;

impl Rule for Weighbridge {
    type Settings = ();

    ghost settings = { λ _. tt };

    ghost uses = { bridge_uses };

    ghost width = { λ _. 1 };

    ghost meaning = { λ _ us. bridgeMeaning us };

    ghost lawful = { λ s us. weighbridge_lawful us };

    ghost beyond = { Prim.search rules };

    fn past(&self, place: usize) -> Option<usize> {
        place.checked_sub(1)
    }

    fn refuses(&self, table: &Table) -> bool {
        any_conflict(table, self.uses.as_slice())
    }

    fn vouches(&self, table: &Table) -> bool {
        all_clear(table, self.uses.as_slice())
    }

    fn lower(&self, table: &Table, bounds: &mut Bounds) {
        lower_all(table, self.uses.as_slice(), bounds);
    }

    fn levels(&self, _table: &Table, _place: usize, _at: Moment) -> Option<(i32, i32)> {
        None
    }
}
