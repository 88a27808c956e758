// Looking at what a tightened sheet shows.
ghost use Rattle.std.specs.Prelude.{◌≡◌, map};
ghost use Rattle.model.specs.Labels.{text_of};
ghost use Rattle.runs.specs.Shown.{LookAnswer, look_bound, look_levels, is_point, in_day};
ghost use Rattle.sheet.specs.Sheets.{labels_of, points_of, TableRead, shown_of, sheet_day};

use super::closing::{answer_for, no_plan};
use super::{Sheet, Shown};
use model::labels::Label;
use model::moments::Moment;
use model::refusals::Refusal;
use rules::limit::Limit;
use rules::rule::Rule;
use runs::answers::Answer;
use tables::tables::Table;

// Whether a moment is a minute, or one of so many points.
fn is_point(at: Moment, points: usize) -> bool
    ensures { result ≡ is_point points at }
{
    match at {
        Moment::Point(p) => p < points,
        Moment::Minute(_) => true,
    }
}

// Whether a moment is a point, or a minute of a day of so many.
fn in_day(at: Moment, horizon: u32) -> bool
    ensures { result ≡ in_day horizon at }
{
    match at {
        Moment::Point(_) => true,
        Moment::Minute(m) => m <= horizon,
    }
}

impl<L: Limit> Sheet<L> {
    // The labels of the points, by their numbers.
    pub fn labels(&self) -> &[Label]
        ensures { map text_of result.now ≡ labels_of self.now }
    {
        self.labels.as_slice()
    }

    // What tightening answered for what is shown. Refused: a sheet that is not tightened.
    pub fn answer(&self) -> Result<Answer, Refusal>
        ensures { LookAnswer (points_of self.now) (shown_of self.now) result }
    {
        match &self.shown {
            Shown::Nothing => Err(Refusal::NotTightened),
            Shown::NoPlan => Ok(no_plan()),
            Shown::Bounds(table, vouched) => Ok(answer_for(table, *vouched)),
        }
    }

    // The tightened table. Refused: a sheet that is not tightened, "no plan".
    fn table(&self) -> Result<&Table, Refusal>
        ensures { TableRead (shown_of self.now) result }
    {
        match &self.shown {
            Shown::Nothing => Err(Refusal::NotTightened),
            Shown::NoPlan => Err(Refusal::NoPlan),
            Shown::Bounds(table, _) => Ok(table),
        }
    }

    // The most minutes that point j may come after point i. Refused: an unknown point, a sheet that is not tightened, "no plan".
    pub fn bound(&self, i: usize, j: usize) -> Result<i32, Refusal>
        ensures { result ≡ look_bound (points_of self.now) (shown_of self.now) i j }
    {
        let points = self.labels.len();
        if i >= points || j >= points {
            return Err(Refusal::NoPoint);
        }
        let table = self.table()?;
        Ok(table.get(i, j))
    }

    // The highest and the lowest level of a place at a moment, or None where the place has no level. Refused: an unknown place, an
    // unknown point, a sheet that is not tightened, "no plan", a minute after the horizon.
    pub fn levels(&self, place: usize, at: Moment) -> Result<Option<(i32, i32)>, Refusal>
        ensures { result ≡ look_levels L.Rule.width L.Rule.meaning (sheet_day L.Limit self.now) (shown_of self.now) place at }
    {
        if place >= self.limits.places() {
            return Err(Refusal::NoPlace);
        }
        if !is_point(at, self.labels.len()) {
            return Err(Refusal::NoPoint);
        }
        let table = self.table()?;
        if !in_day(at, self.horizon) {
            return Err(Refusal::BadMinute);
        }
        Ok(self.limits.levels(table, place, at))
    }
}
