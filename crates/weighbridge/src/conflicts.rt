// Crossings that leave a table no plan. The table, the others and b come one by one, as in the definitions of the clauses.
ghost use Rattle.std.specs.Prelude.{Decides};
ghost use Rattle.tables.specs.Views.{table_view};
ghost use Rattle.weighbridge.specs.Crossings.{uses_of, Overlap, OverlapsOne, Conflicts};
ghost use Rattle.weighbridge_laws.specs.Weighbridges.{Refuses};

use model::slips::Use;
use register::records::Numbered;
use tables::tables::Table;

// Whether each of the two begins before the other has ended.
fn overlap(table: &Table, a: Use, b: Use) -> bool
    ensures { Decides result (Overlap (table_view table.now) a b) }
{
    table.get(a.last, b.first) < 0 && table.get(b.last, a.first) < 0
}

// Whether b overlaps one of the others.
fn overlaps_one(table: &Table, others: &[Numbered<Use>], b: Use) -> bool
    ensures { Decides result (OverlapsOne (table_view table.now) (uses_of others.now) b) }
{
    others.iter().any(|a| overlap(table, a.what, b))
}

// Whether b ends before it begins, or overlaps one of the others.
fn conflicts(table: &Table, others: &[Numbered<Use>], b: Use) -> bool
    ensures { Decides result (Conflicts (table_view table.now) (uses_of others.now) b) }
{
    table.get(b.first, b.last) < 0 || overlaps_one(table, others, b)
}

// Whether any of the uses conflicts with itself or with one before it. A loop over places: of an `any` over them, each with the uses
// before it, the proof that it decides Refuses did not close, and a call of itself on the uses but the last finds an early conflict late.
pub(crate) fn any_conflict(table: &Table, uses: &[Numbered<Use>]) -> bool
    ensures { Decides result (Refuses (uses_of uses.now) (table_view table.now)) }
{
    for (i, b) in uses.iter().enumerate() {
        if conflicts(table, &uses[0..i], b.what) {
            return true;
        }
    }
    false
}
