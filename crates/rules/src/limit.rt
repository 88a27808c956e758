// What a limit has to tell and to do beyond a rule.
ghost use Rattle.std.specs.Prelude.{◌≡◌, ℕ, ◌≤◌, Bool, length, Some, None, Decides};
ghost use Rattle.model.specs.Limits.{places_of, not_taken, not_given_up, answer};
ghost use Rattle.model.specs.Uses.{standing};
ghost use Rattle.model.specs.declared.slips.Use.{Use};
ghost use Rattle.rules.specs.Calls.{AnyUse, put_if_ok};

use crate::rule::Rule;
use model::refusals::Refusal;
use model::slips::Use;

// A limit is a rule that takes uses and gives them up.
pub trait Limit: Rule {
    // The most uses of each place.
    ghost most: { Self.Settings → ℕ → ℕ };

    // The form of the uses that each place takes.
    ghost form: { Self.Settings → ℕ → Use → Bool };

    // How many places it has, at most 64.
    fn places(&self) -> usize
        ensures { result ≡ places_of (Self.width (Self.settings self.now)) };

    // The most uses of a place.
    fn most_uses(&self, place: usize) -> usize
        ensures { result ≡ most (Self.settings self.now) place };

    // Whether any use stands in it, one in a place out of reach included.
    fn any_use(&self) -> bool
        ensures { Decides result (AnyUse (Self.uses self.now)) };

    // Takes a use at a place under a slip number: that use alone is added. A refusal leaves all as it was.
    fn take(&mut self, place: usize, number: u32, what: Use) -> Result<(), Refusal>
        ensures settings { Self.settings self.new ≡ Self.settings self.old }
        ensures answer { let s = Self.settings self.old in result ≡ answer (not_taken (Self.width s) (most s) (form s) (Self.uses self.old) place number what) }
        ensures uses { Self.uses self.new ≡ put_if_ok result (Self.uses self.old) place number (Some what) };

    // Gives up the use of that number at a place: that use alone is removed. A refusal leaves all as it was.
    fn give_up(&mut self, place: usize, number: u32) -> Result<(), Refusal>
        ensures settings { Self.settings self.new ≡ Self.settings self.old }
        ensures answer { result ≡ answer (not_given_up (Self.width (Self.settings self.old)) (Self.uses self.old) place number) }
        ensures uses { Self.uses self.new ≡ put_if_ok result (Self.uses self.old) place number None };

    // No more than a place's most uses stand there.
    ghost few: { (x : Self) (place : ℕ) → length (standing (Self.uses x place)) ≤ most (Self.settings x) place };
}
