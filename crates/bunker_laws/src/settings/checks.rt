// Which settings a bunker can have.
ghost use Rattle.std.specs.Prelude.{◌≡◌, MatchResult};
ghost use Rattle.model.specs.declared.refusals.Refusal.TheVariants.{BadSettings};
ghost use Rattle.bunker_laws.specs.Settings.{Proper};

use super::Settings;
use model::refusals::Refusal;

impl Settings {
    // The settings, or a refusal unless 0 <= floor <= start <= roof <= 100,000,000.
    pub fn new(floor: i32, roof: i32, start: i32) -> Result<Settings, Refusal>
        ensures { MatchResult result (λ s. (s.floor ≡ floor) × (s.roof ≡ roof) × (s.start ≡ start)) (λ e. (e ≡ BadSettings) × (Proper floor roof start → ⊥)) }
    {
        if 0 <= floor && floor <= start && start <= roof && roof <= 100_000_000 {
            Ok(Settings { floor, roof, start })
        } else {
            Err(Refusal::BadSettings)
        }
    }
}
