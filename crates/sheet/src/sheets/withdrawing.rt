// Withdrawing distance slips and uses.
ghost use Rattle.std.specs.Prelude.{◌≡◌};
ghost use Rattle.runs.specs.declared.calls.Call.TheVariants.{WithdrawDistance, WithdrawUse};
ghost use Rattle.sheet.specs.Sheets.{Changes};

use super::{Sheet, Shown};
use model::refusals::Refusal;
use rules::limit::Limit;
use rules::rule::Rule;

impl<L: Limit> Sheet<L> {
    // Withdraws the distance slip of that number. Refused where none stands.
    pub fn withdraw_distance(&mut self, number: u32) -> Result<(), Refusal>
        ensures { Changes L.Limit self.old (WithdrawDistance number) tt result self.new }
    {
        self.slips.remove(number).ok_or(Refusal::NotStanding)?;
        self.shown = Shown::Nothing;
        Ok(())
    }

    // Withdraws the use of that number at a place. Refused: an unknown place, a number that does not stand there.
    pub fn withdraw_use(&mut self, place: usize, number: u32) -> Result<(), Refusal>
        ensures { Changes L.Limit self.old (WithdrawUse place number) tt result self.new }
    {
        self.limits.give_up(place, number)?;
        self.shown = Shown::Nothing;
        Ok(())
    }
}
