// Making a bunker.
ghost use Rattle.std.specs.Prelude.{◌≡◌, ◌⊎◌, MatchResult};
ghost use Rattle.bunker_laws.specs.Settings.{Proper};
ghost use Rattle.bunker.specs.Records.{bunker_uses};
ghost use Rattle.model.specs.Uses.{none};
ghost use Rattle.model.specs.declared.refusals.Refusal.TheVariants.{BadSettings, OutOfMemory};

use super::Bunker;
use bunker_laws::settings::Settings;
use model::refusals::Refusal;
use register::registers::Register;
use std::alloc::Global;

impl Bunker {
    // A bunker in which no use stands, with memory for all that it may ever hold. Settings other than
    // 0 <= floor <= start <= roof <= 100,000,000 are refused.
    pub fn new(heap: Global, floor: i32, roof: i32, start: i32) -> Result<Bunker, Refusal>
        ensures { MatchResult result (λ b. Proper floor roof start × (b.settings.floor ≡ floor) × (b.settings.roof ≡ roof) × (b.settings.start ≡ start) × (bunker_uses b ≡ none)) (λ e. ((e ≡ BadSettings) × (Proper floor roof start → ⊥)) ⊎ ((e ≡ OutOfMemory) × Proper floor roof start)) }
    {
        let settings = Settings::new(floor, roof, start)?;
        Bunker::with_settings(heap, settings)
    }

    // The same by settings that are made already.
    pub fn with_settings(heap: Global, settings: Settings) -> Result<Bunker, Refusal>
        ensures { MatchResult result (λ b. (b.settings ≡ settings) × (bunker_uses b ≡ none)) (λ e. e ≡ OutOfMemory) }
    {
        let uses = Register::new(heap)?;
        Ok(Bunker { settings, uses })
    }
}
