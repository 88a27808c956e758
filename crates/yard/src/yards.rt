// Two bunkers and a weighbridge as one limit.
ghost use Rattle.std.specs.Prelude.{◌≡◌, MatchResult};
ghost use Rattle.model.specs.declared.refusals.Refusal.TheVariants.{OutOfMemory};
ghost use Rattle.yard.specs.Yards.{Built};

use bunker::bunkers::Bunker;
use bunker_laws::settings::Settings;
use model::refusals::Refusal;
use rules::pair::Pair;
use std::alloc::Global;
use weighbridge::weighbridges::Weighbridge;

// The minutes of a day in this yard.
pub const HORIZON: u32 = 1_440;

// Place 0 is the first bunker, place 1 the second, place 2 the weighbridge.
pub type Yard = Pair<Bunker, Pair<Bunker, Weighbridge>>;

// A yard in which no use stands, with memory for all that it may ever hold. The settings come one by one, as `Built` takes them.
pub fn build_yard(heap: Global, first: Settings, second: Settings) -> Result<Yard, Refusal>
    ensures { MatchResult result (Built first second) (λ e. e ≡ OutOfMemory) }
{
    let left = Bunker::with_settings(heap, first)?;
    let middle = Bunker::with_settings(heap, second)?;
    let bridge = Weighbridge::new(heap)?;
    Ok(Pair {
        left,
        right: Pair {
            left: middle,
            right: bridge,
        },
    })
}
