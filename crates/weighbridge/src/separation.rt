// Crossings that a table keeps apart.
ghost use Rattle.std.specs.Prelude.{Decides};
ghost use Rattle.tables.specs.Views.{table_view};
ghost use Rattle.weighbridge.specs.Crossings.{uses_of, Apart, ApartFromAll, Clear};
ghost use Rattle.weighbridge_laws.specs.Weighbridges.{Vouches};

use model::slips::Use;
use register::records::Numbered;
use tables::tables::Table;

// Whether one of the two is over when the other begins.
fn apart(table: &Table, a: Use, b: Use) -> bool
    ensures { Decides result (Apart (table_view table.now) a b) }
{
    table.get(b.first, a.last) <= 0 || table.get(a.first, b.last) <= 0
}

// Whether b is apart from all the others.
fn apart_from_all(table: &Table, others: &[Numbered<Use>], b: Use) -> bool
    ensures { Decides result (ApartFromAll (table_view table.now) (uses_of others.now) b) }
{
    others.iter().all(|a| apart(table, a.what, b))
}

// Whether b ends no earlier than it begins, and is apart from all the others.
fn clear(table: &Table, others: &[Numbered<Use>], b: Use) -> bool
    ensures { Decides result (Clear (table_view table.now) (uses_of others.now) b) }
{
    table.get(b.last, b.first) <= 0 && apart_from_all(table, others, b)
}

// Whether each of the uses is clear of those before it. A loop, as in any_conflict.
pub(crate) fn all_clear(table: &Table, uses: &[Numbered<Use>]) -> bool
    ensures { Decides result (Vouches (uses_of uses.now) (table_view table.now)) }
{
    for (i, b) in uses.iter().enumerate() {
        if !clear(table, &uses[0..i], b.what) {
            return false;
        }
    }
    true
}
