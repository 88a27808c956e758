// The bounds that follow from the order of a crossing, and from the turns that two have to take.
ghost use Rattle.tables.specs.Views.{table_view, Lowers};
ghost use Rattle.weighbridge.specs.Crossings.{uses_of, Turn, Turns};
ghost use Rattle.weighbridge_laws.specs.Weighbridges.{Gives};

use model::slips::Use;
use register::records::Numbered;
use tables::bounds::Bounds;
use tables::tables::Table;

// If b begins before a has ended, b ends by the time that a begins.
fn lower_turn(table: &Table, a: Use, b: Use, bounds: &mut Bounds)
    ensures { Lowers (Turn (table_view table.now) a b) bounds.old bounds.new }
{
    if table.get(a.last, b.first) < 0 {
        bounds.lower(a.first, b.last, 0);
    }
}

// The turns of b with each of the others.
fn lower_turns(table: &Table, others: &[Numbered<Use>], b: Use, bounds: &mut Bounds)
    ensures { Lowers (Turns (table_view table.now) (uses_of others.now) b) bounds.old bounds.new }
{
    for a in others {
        lower_turn(table, a.what, b, bounds);
        lower_turn(table, b, a.what, bounds);
    }
}

// The order of each use, and its turns with those before it.
pub(crate) fn lower_all(table: &Table, uses: &[Numbered<Use>], bounds: &mut Bounds)
    ensures { Lowers (Gives (uses_of uses.now) (table_view table.now)) bounds.old bounds.new }
{
    if let Some((b, others)) = uses.split_last() {
        lower_all(table, others, bounds);
        bounds.lower(b.what.last, b.what.first, 0);
        lower_turns(table, others, b.what, bounds);
    }
}
