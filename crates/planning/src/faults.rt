// Why there is no answer for a day.
ghost use Rattle.std.specs.Prelude.{◌≡◌};
ghost use Rattle.model.specs.declared.refusals.Refusal.TheVariants.{OutOfMemory};
ghost use Rattle.planning.specs.declared.faults.NotPlanned.TheVariants.{Refused as refusedBy};

use dayfile::faults::Fault;
use model::refusals::Refusal;
use std::alloc::AllocError;

// Why a day was not planned.
#[derive(Clone, Copy)]
pub enum NotPlanned {
    // something is wrong with its files
    Fault(Fault),
    // there is no memory, or the buffer is too short for the output
    Refused(Refusal),
}

impl From<Refusal> for NotPlanned {
    ghost from_gives = { λ e r. r ≡ refusedBy e };

    fn from(refusal: Refusal) -> NotPlanned {
        NotPlanned::Refused(refusal)
    }
}

impl From<AllocError> for NotPlanned {
    ghost from_gives = { λ _ r. r ≡ refusedBy OutOfMemory };

    fn from(error: AllocError) -> NotPlanned {
        NotPlanned::Refused(error.into())
    }
}
