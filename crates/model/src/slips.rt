// What slips say.
ghost use Rattle.std.specs.Prelude.{◌≡◌};

// A distance slip: the minute of `to` comes at most `minutes` after the minute of `from`. A negative number of minutes says that
// `to` comes at least so much before `from`.
#[derive(Clone, Copy)]
pub struct Distance {
    pub from: usize,
    pub to: usize,
    pub minutes: i32,
}

impl Distance {
    pub fn new(from: usize, to: usize, minutes: i32) -> Distance
        ensures { result ≡ record { from = from; to = to; minutes = minutes } }
    {
        Distance { from, to, minutes }
    }
}

// The most places that limits have. Those behind cannot be reached.
pub const MOST_PLACES: usize = 64;

// A use of a place of the limits, between two points. What the kilos mean, and which uses a place takes, is its kind's to say.
#[derive(Clone, Copy)]
pub struct Use {
    pub first: usize,
    pub last: usize,
    pub kilos: i32,
}

impl Use {
    pub fn new(first: usize, last: usize, kilos: i32) -> Use
        ensures { result ≡ record { first = first; last = last; kilos = kilos } }
    {
        Use { first, last, kilos }
    }
}
