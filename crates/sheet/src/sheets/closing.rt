// Tightening a sheet.
ghost use Rattle.std.specs.Prelude.{◌≡◌, ℕ};
ghost use Rattle.promise_laws.specs.Held.{UsesHeld};
ghost use Rattle.runs.specs.Shown.{Shows, Answers, LooseWord, verdict_of, Shown as Seen};
ghost use Rattle.sheet.specs.Sheets.{points_of, shown_of, sheet_day};
ghost use Rattle.tables.specs.Views.{table_view};

use super::{Sheet, Shown};
use model::verdicts::Verdict;
use rules::limit::Limit;
use rules::rule::Rule;
use runs::answers::Answer;
use tables::tables::Table;
use tightening::tighten::tightened;

// A word with a one at bit p for each point p to which the table leaves more than one minute.
fn loose_word(table: &Table) -> u64
    ensures { LooseWord (table_view table.now) (table_view table.now).points result }
{
    let mut word = 0u64;
    // a loop, since p is the bit that is set and no place in a list, and a fold would only hand the word on
    for p in 0..table.points() {
        if table.get(0, p) + table.get(p, 0) > 0 {
            word |= 1 << p;
        }
    }
    word
}

// The verdict where some table is closed.
fn verdict_of(vouched: bool) -> Verdict
    ensures { result ≡ verdict_of vouched }
{
    if vouched {
        Verdict::AnyPlan
    } else {
        Verdict::Open
    }
}

// The answer where no table is closed.
pub(super) fn no_plan() -> Answer
    ensures { Answers 0 Seen.no_plan result }
{
    Answer {
        verdict: Verdict::NoPlan,
        loose: 0,
        count: 0,
    }
}

// The answer for a tightened table, for which every limit vouches or not.
pub(super) fn answer_for(table: &Table, vouched: bool) -> Answer
    ensures { Answers (table_view table.now).points (Seen.bounds (table_view table.now) vouched) result }
{
    let loose = loose_word(table);
    Answer {
        verdict: verdict_of(vouched),
        loose,
        count: loose.count_ones(),
    }
}

impl<L: Limit> Sheet<L> {
    // Finds the greatest closed table, or that there is none, and shows it. A sheet ruled and changed by its calls alone has no use
    // that names a point it lacks.
    pub fn tighten(&mut self) -> Answer
        ensures day { sheet_day L.Limit self.new ≡ sheet_day L.Limit self.old }
        ensures shows { UsesHeld (points_of self.old) (L.Rule.uses self.old.limits) → Shows L.Rule.meaning (sheet_day L.Limit self.old) (shown_of self.new) }
        ensures answer { Answers (points_of self.old) (shown_of self.new) result }
    {
        match tightened(&self.limits, self.horizon, self.labels.len(), &self.slips) {
            None => {
                self.shown = Shown::NoPlan;
                no_plan()
            }
            Some(table) => {
                let vouched = self.limits.vouches(&table);
                self.shown = Shown::Bounds(table, vouched);
                answer_for(&table, vouched)
            }
        }
    }
}
