// The bunker itself. What is done with it stands in the other modules.
ghost use Rattle.std.specs.Prelude.{◌≡◌, ℕ, Some};
ghost use Rattle.bunker.specs.Ranges.{Light};
ghost use Rattle.model.specs.declared.slips.Use.{Use};
ghost use Rattle.register.specs.Standing.{stands};

use bunker_laws::settings::Settings;
use model::slips::Use;
use register::registers::Register;

mod making;

// The most uses that stand in a bunker.
pub const MOST_USES: usize = 32;

// A store with a floor and a roof, and the deliveries and loans that stand in it.
#[derive(Drop)]
pub struct Bunker {
    pub(crate) settings: Settings,
    pub(crate) uses: Register<Use, MOST_USES>,
    ghost light: { (k : ℕ) (u : Use) → stands uses k ≡ Some u → Light u },
}
