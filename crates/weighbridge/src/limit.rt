// A weighbridge as a limit.
ghost use Rattle.std.specs.Prelude.{◌≡◌};
ghost use Rattle.model.specs.Limits.{at_first};
ghost use Rattle.weighbridge.specs.Bridges.{crossing};
ghost use Rattle.rules.proofs.Singles.{few_single};

use crate::weighbridges::{MOST_USES, Weighbridge};
use model::refusals::Refusal;
use model::slips::Use;
use rules::limit::Limit;
use rules::single::{any_in_one, give_up_one, most_of_one, take_one};

// Whether the use has no kilos and two different points.
fn is_crossing(what: Use) -> bool
    ensures { result ≡ crossing what }
{
    what.kilos == 0 && what.first != what.last
}

// Each body is one call of rules::single. One impl for all limits of one place is refused: the most uses, a parameter of the
// register's type, would stand in neither its trait nor its type.
impl Limit for Weighbridge {
    ghost most = { λ _ place. at_first 16 0 place };

    ghost form = { λ _ _ u. crossing u };

    ghost few = { λ x place. few_single x.uses place };

    fn places(&self) -> usize {
        1
    }

    fn most_uses(&self, place: usize) -> usize {
        most_of_one(MOST_USES, place)
    }

    fn any_use(&self) -> bool {
        any_in_one(&self.uses)
    }

    fn take(&mut self, place: usize, number: u32, what: Use) -> Result<(), Refusal> {
        take_one(&mut self.uses, place, number, what, is_crossing(what))
    }

    fn give_up(&mut self, place: usize, number: u32) -> Result<(), Refusal> {
        give_up_one(&mut self.uses, place, number)
    }
}
