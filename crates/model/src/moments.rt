// The last minute of the longest day. The first is 0.
pub const LAST_MINUTE: u32 = 10_080;

// When a level is asked for: at the minute that a plan gives to a point, or at a minute itself. Whoever is
// asked says which points and minutes there are.
#[derive(Clone, Copy)]
pub enum Moment {
    Point(usize),
    Minute(u32),
}
