// Naming a point.
ghost use Rattle.std.specs.Prelude.{◌≡◌, true, false, map};
ghost use Rattle.model.specs.Labels.{text_of};
ghost use Rattle.runs.specs.Days.{in_use};
ghost use Rattle.runs.specs.declared.calls.Call.TheVariants.{Name};
ghost use Rattle.sheet.specs.Sheets.{points_of, Changes};

use super::{Sheet, Shown};
use model::labels::{Label, MOST_POINTS};
use model::refusals::Refusal;
use rules::limit::Limit;
use rules::rule::Rule;

// Whether one of the labels has that text.
fn in_use(labels: &[Label], text: &[u8]) -> bool
    ensures { result ≡ in_use text.now (map text_of labels.now) }
{
    labels.iter().any(|label| label.as_bytes() == text)
}

impl<L: Limit> Sheet<L> {
    // Names the next point, and tells its number. Refused: a text that is no label, one that is in use, a 65th point.
    pub fn name(&mut self, text: &[u8]) -> Result<usize, Refusal>
        ensures { Changes L.Limit self.old (Name text.entry) (points_of self.old) result self.new }
    {
        let label = Label::new(text)?;
        if in_use(self.labels.as_slice(), text) {
            return Err(Refusal::LabelTaken);
        }
        let point = self.labels.len();
        if point >= MOST_POINTS {
            return Err(Refusal::PointsFull);
        }
        // cannot fail: room for every label was claimed when the sheet was ruled
        let _ = self.labels.push(label);
        self.shown = Shown::Nothing;
        Ok(point)
    }
}
