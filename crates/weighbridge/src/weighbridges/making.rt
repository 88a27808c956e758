// Making a weighbridge.
ghost use Rattle.std.specs.Prelude.{◌≡◌, MatchResult};
ghost use Rattle.model.specs.Uses.{none};
ghost use Rattle.model.specs.declared.refusals.Refusal.TheVariants.{OutOfMemory};
ghost use Rattle.weighbridge.specs.Bridges.{bridge_uses};

use super::Weighbridge;
use model::refusals::Refusal;
use register::registers::Register;
use std::alloc::Global;

impl Weighbridge {
    // A bridge in which no use stands, with memory for all that it may ever hold.
    pub fn new(heap: Global) -> Result<Weighbridge, Refusal>
        ensures { MatchResult result (λ w. bridge_uses w ≡ none) (λ e. e ≡ OutOfMemory) }
    {
        let uses = Register::new(heap)?;
        Ok(Weighbridge { uses })
    }
}
