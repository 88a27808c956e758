// The settings of a bunker.
ghost use Rattle.std.specs.Prelude.{pos, ◌≤ℤ◌};

mod checks;

// How low and how high a bunker may stand, and where it stands before any use, in kilos.
#[derive(Clone, Copy)]
pub struct Settings {
    pub floor: i32,
    pub roof: i32,
    pub start: i32,
    ghost low: { pos 0 ≤ℤ floor },
    ghost above_floor: { floor ≤ℤ start },
    ghost below_roof: { start ≤ℤ roof },
    ghost high: { roof ≤ℤ pos 100000000 },
}
