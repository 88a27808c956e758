// What a rule has to tell, and the laws that it keeps.
ghost use Rattle.std.specs.Prelude.{◌≡◌, ℕ, ◌≤◌, None, Decides};
ghost use Rattle.model.specs.Limits.{behind};
ghost use Rattle.model.specs.Meanings.{Meaning, Lawful};
ghost use Rattle.model.specs.Uses.{Uses};
ghost use Rattle.tables.specs.Views.{table_view, Lowers};

use model::moments::Moment;
use tables::bounds::Bounds;
use tables::tables::Table;

// A rule allows some plans and not others, and answers questions about tables. What it means is one value: its settings and the
// set of its standing uses. A question changes nothing, and its answer depends on that value and the question alone.
pub trait Rule {
    type Settings;

    ghost settings: { Self → Self.Settings };

    ghost uses: { Self → Uses };

    // How many places its parts have together, those out of reach included.
    ghost width: { Self.Settings → ℕ };

    ghost meaning: { Self.Settings → Uses → Meaning };

    // The number of the place behind this rule's own, or None if it is one of them.
    fn past(&self, place: usize) -> Option<usize>
        ensures { result ≡ behind (width (settings self.now)) place };

    // Whether it refuses the table.
    fn refuses(&self, table: &Table) -> bool
        ensures { Decides result ((meaning (settings self.now) (uses self.now)).refuses (table_view table.now)) };

    // Whether it vouches for the table.
    fn vouches(&self, table: &Table) -> bool
        ensures { Decides result ((meaning (settings self.now) (uses self.now)).vouches (table_view table.now)) };

    // Lowers each bound to the least that it gives for the pair under the table.
    fn lower(&self, table: &Table, bounds: &mut Bounds)
        ensures { Lowers ((meaning (settings self.now) (uses self.now)).gives (table_view table.now)) bounds.old bounds.new };

    // The highest and the lowest level of a place at a moment, or None where it has no level: a pair, as `Meaning` has it.
    fn levels(&self, table: &Table, place: usize, at: Moment) -> Option<(i32, i32)>
        ensures { result ≡ (meaning (settings self.now) (uses self.now)).levels (table_view table.now) place at };

    ghost lawful: { (s : Self.Settings) (us : Uses) → Lawful us (meaning s us) };

    // No use stands behind its places.
    ghost beyond: { (x : Self) (q : ℕ) → width (settings x) ≤ q → uses x q ≡ (λ k. None) };
}
