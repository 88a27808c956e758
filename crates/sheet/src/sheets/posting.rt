// Posting distance slips and uses.
ghost use Rattle.std.specs.Prelude.{◌≡◌};
ghost use Rattle.model.specs.Limits.{answer};
ghost use Rattle.runs.specs.declared.calls.Call.TheVariants.{PostDistance, PostUse};
ghost use Rattle.sheet.specs.Sheets.{Changes, bad_ends, bad_distance, slip_refusal};

use super::{Sheet, Shown};
use model::refusals::Refusal;
use model::slips::{Distance, Use};
use register::records::is_slip_number;
use register::registers::NoInsert;
use rules::limit::Limit;
use rules::rule::Rule;

// Whether a slip from one point to another may be posted under a number, on a sheet of so many points.
fn check_ends(number: u32, from: usize, to: usize, points: usize) -> Result<(), Refusal>
    ensures { result ≡ answer (bad_ends points number from to) }
{
    if !is_slip_number(number) {
        return Err(Refusal::BadSlipNumber);
    }
    if from >= points || to >= points {
        return Err(Refusal::NoPoint);
    }
    Ok(())
}

// Whether a distance slip may be posted under a number, on a sheet of so many points and minutes.
fn check_distance(number: u32, slip: Distance, points: usize, horizon: u32) -> Result<(), Refusal>
    ensures { result ≡ answer (bad_distance points horizon number slip) }
{
    check_ends(number, slip.from, slip.to, points)?;
    if slip.from == slip.to {
        return Err(Refusal::SamePoint);
    }
    if slip.minutes.unsigned_abs() > horizon {
        return Err(Refusal::BadDistance);
    }
    Ok(())
}

// The refusal of a slip that the register does not take. Of a use, a number out of range and a full register mean other refusals.
fn slip_refusal(why: NoInsert) -> Refusal
    ensures { result ≡ slip_refusal why }
{
    match why {
        NoInsert::OutOfRange => Refusal::BadSlipNumber,
        NoInsert::Stands => Refusal::NumberStands,
        NoInsert::Full => Refusal::SlipsFull,
    }
}

impl<L: Limit> Sheet<L> {
    // Posts a distance slip. Refused: a bad number, an unknown point, a point and itself, minutes beyond the horizon, a number that
    // stands, a 257th slip.
    pub fn post_distance(&mut self, number: u32, slip: Distance) -> Result<(), Refusal>
        ensures { Changes L.Limit self.old (PostDistance number slip) tt result self.new }
    {
        check_distance(number, slip, self.labels.len(), self.horizon)?;
        self.slips.insert(number, slip).map_err(slip_refusal)?;
        self.shown = Shown::Nothing;
        Ok(())
    }

    // Posts a use to a place. Refused: an unknown place, a bad number, an unknown point, and what the place itself refuses.
    pub fn post_use(&mut self, place: usize, number: u32, what: Use) -> Result<(), Refusal>
        ensures { Changes L.Limit self.old (PostUse place number what) tt result self.new }
    {
        if place >= self.limits.places() {
            return Err(Refusal::NoPlace);
        }
        check_ends(number, what.first, what.last, self.labels.len())?;
        self.limits.take(place, number, what)?;
        self.shown = Shown::Nothing;
        Ok(())
    }
}
