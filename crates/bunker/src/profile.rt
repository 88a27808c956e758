// The resource profile of a bunker: how high and how low it can stand at a moment.
ghost use Rattle.std.specs.Prelude.{◌≡◌, pos, negsuc, ◌+ℤ◌, ◌-ℤ◌, ◌≤ℤ◌};
ghost use Rattle.bunker.specs.Choices.{high_of, low_of};
ghost use Rattle.bunker.specs.Records.{told};
ghost use Rattle.bunker.specs.Rooms.{missed, AreLevels};

use crate::bunkers::Bunker;
use crate::levels::Levels;
use crate::moments::TableAt;
use crate::options::{Options, Worth};
use bunker_laws::settings::Settings;

// The highest and the lowest level among the options that are open.
#[derive(Clone, Copy)]
pub(crate) struct Profile {
    pub(crate) levels: Levels,
    ghost deep: { negsuc 31999999 ≤ℤ levels.lowest },
    ghost order: { levels.lowest ≤ℤ levels.highest },
    ghost tall: { levels.highest ≤ℤ pos 132000000 },
}

impl Profile {
    // Whether no level between floor and roof is left when a use with these options is worth so much.
    pub(crate) fn rules_out(self, settings: Settings, options: Options, worth: Worth) -> bool
        ensures { result ≡ missed settings ((self.levels.highest -ℤ high_of options) +ℤ worth.kilos) ((self.levels.lowest -ℤ low_of options) +ℤ worth.kilos) }
    {
        let worths = options.levels();
        let highest = self.levels.highest - worths.highest + worth.kilos;
        let lowest = self.levels.lowest - worths.lowest + worth.kilos;
        Levels { highest, lowest }.miss(settings)
    }
}

impl Bunker {
    // The levels at a moment: the start, and for each use its highest and its lowest worth.
    pub(crate) fn profile(&self, here: TableAt) -> Profile
        ensures { told AreLevels self.now here.entry.table.now here.entry.at result.levels.highest result.levels.lowest }
    {
        let mut highest = self.settings.start;
        let mut lowest = self.settings.start;
        for x in self.uses.as_slice() {
            let worths = here.options(x.what).levels();
            highest += worths.highest;
            lowest += worths.lowest;
        }
        Profile {
            levels: Levels { highest, lowest },
        }
    }
}
