// Slip numbers, and records under them.
ghost use Rattle.std.specs.Prelude.{◌≡◌};
ghost use Rattle.register.specs.Numbers.{is_number};

// The largest slip number. The smallest is 1.
pub const LAST_NUMBER: u32 = 9_999;

// Whether the number is a slip number.
pub fn is_slip_number(number: u32) -> bool
    ensures { result ≡ is_number number }
{
    (1..=LAST_NUMBER).contains(&number)
}

// A record under its slip number.
#[derive(Clone, Copy)]
pub struct Numbered<T> {
    pub number: u32,
    pub what: T,
}
