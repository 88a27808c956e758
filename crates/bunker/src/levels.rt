// Levels beside the floor and the roof of a bunker.
ghost use Rattle.std.specs.Prelude.{◌≡◌};
ghost use Rattle.bunker.specs.Rooms.{missed, within};

use bunker_laws::settings::Settings;

// The highest and the lowest of some levels.
#[derive(Clone, Copy)]
pub(crate) struct Levels {
    pub(crate) highest: i32,
    pub(crate) lowest: i32,
}

impl Levels {
    // Whether none of them lies between floor and roof.
    pub(crate) fn miss(self, settings: Settings) -> bool
        ensures { result ≡ missed settings self.highest self.lowest }
    {
        self.highest < settings.floor || self.lowest > settings.roof
    }

    // Whether all of them do.
    pub(crate) fn fit(self, settings: Settings) -> bool
        ensures { result ≡ within settings self.highest self.lowest }
    {
        self.lowest >= settings.floor && self.highest <= settings.roof
    }
}
