// Limits of one place, whose uses stand in a register.
ghost use Rattle.std.specs.Prelude.{◌≡◌, Some, None, Decides};
ghost use Rattle.model.specs.Limits.{not_taken, not_given_up, answer, at_first};
ghost use Rattle.model.specs.Uses.{single};
ghost use Rattle.register.specs.Standing.{stands};
ghost use Rattle.rules.specs.Calls.{AnyUse, put_if_ok};
ghost use Rattle.rules.specs.Singles.{refusal_for};

use model::labels::MOST_POINTS;
use model::refusals::Refusal;
use model::slips::Use;
use register::registers::{NoInsert, Register};

// The most uses of a place: the given number at place 0, and none elsewhere.
pub fn most_of_one(most: usize, place: usize) -> usize
    ensures { result ≡ at_first most 0 place }
{
    if place == 0 { most } else { 0 }
}

// Whether any use stands in it.
pub fn any_in_one<const MOST: usize>(uses: &Register<Use, MOST>) -> bool
    ensures { Decides result (AnyUse (single (stands uses.now))) }
{
    !uses.is_empty()
}

// Takes a use at a place under a slip number, or says why not; `fits` tells whether the use has the kind's form.
// A closure in its place would have to be described in the contract, by what each call answers.
pub fn take_one<const MOST: usize>(
    uses: &mut Register<Use, MOST>,
    place: usize,
    number: u32,
    what: Use,
    fits: bool,
) -> Result<(), Refusal>
    ensures answer { result ≡ answer (not_taken 1 (at_first MOST 0) (λ q u. fits) (single (stands uses.old)) place number what) }
    ensures uses { single (stands uses.new) ≡ put_if_ok result (single (stands uses.old)) place number (Some what) }
{
    if place > 0 {
        return Err(Refusal::NoPlace);
    }
    if !fits || what.first >= MOST_POINTS || what.last >= MOST_POINTS {
        return Err(Refusal::BadUse);
    }
    uses.insert(number, what).map_err(refusal_for::<MOST>)
}

// The refusal of a use that its register does not take. Of a slip, a number out of range and a full register mean other refusals.
fn refusal_for<const MOST: usize>(why: NoInsert) -> Refusal
    ensures { result ≡ refusal_for MOST why }
{
    match why {
        NoInsert::OutOfRange => Refusal::BadUse,
        NoInsert::Stands => Refusal::NumberStands,
        NoInsert::Full => Refusal::UsesFull(MOST),
    }
}

// Gives up the use of that number at a place, or says why not.
pub fn give_up_one<const MOST: usize>(
    uses: &mut Register<Use, MOST>,
    place: usize,
    number: u32,
) -> Result<(), Refusal>
    ensures answer { result ≡ answer (not_given_up 1 (single (stands uses.old)) place number) }
    ensures uses { single (stands uses.new) ≡ put_if_ok result (single (stands uses.old)) place number None }
{
    if place > 0 {
        return Err(Refusal::NoPlace);
    }
    uses.remove(number).ok_or(Refusal::NotStanding)?;
    Ok(())
}
