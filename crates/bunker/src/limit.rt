// A bunker as a limit.
ghost use Rattle.std.specs.Prelude.{◌≡◌};
ghost use Rattle.bunker.specs.Ranges.{moves_kilos};
ghost use Rattle.model.specs.Limits.{at_first};
ghost use Rattle.rules.proofs.Singles.{few_single};

use crate::bunkers::{Bunker, MOST_USES};
use model::refusals::Refusal;
use model::slips::Use;
use rules::limit::Limit;
use rules::single::{any_in_one, give_up_one, most_of_one, take_one};

// The most kilos of a use, either way.
const MOST_KILOS: u32 = 1_000_000;

// Whether the use moves some kilos, and not too many.
fn moves_kilos(what: Use) -> bool
    ensures { result ≡ moves_kilos what }
{
    what.kilos != 0 && what.kilos.unsigned_abs() <= MOST_KILOS
}

// Each body is one call of rules::single. One impl for all limits of one place is refused: the most uses, a parameter of the
// register's type, would stand in neither its trait nor its type.
impl Limit for Bunker {
    ghost most = { λ _ place. at_first 32 0 place };

    ghost form = { λ _ _ u. moves_kilos u };

    ghost few = { λ x place. few_single x.uses place };

    fn places(&self) -> usize {
        1
    }

    fn most_uses(&self, place: usize) -> usize {
        most_of_one(MOST_USES, place)
    }

    fn any_use(&self) -> bool {
        any_in_one(&self.uses)
    }

    fn take(&mut self, place: usize, number: u32, what: Use) -> Result<(), Refusal> {
        take_one(&mut self.uses, place, number, what, moves_kilos(what))
    }

    fn give_up(&mut self, place: usize, number: u32) -> Result<(), Refusal> {
        give_up_one(&mut self.uses, place, number)
    }
}
