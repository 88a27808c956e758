// The calls on a sheet, as values.
use model::moments::Moment;
use model::slips::{Distance, Use};

// One call on a ruled sheet. A number is a slip's, a place one of the limits'.
#[derive(Clone, Copy)]
pub enum Call<'a> {
    // names the next point by this label
    Name(&'a [u8]),
    // posts a distance slip under a number
    PostDistance(u32, Distance),
    // posts a use to a place under a number
    PostUse(usize, u32, Use),
    // withdraws the distance slip of a number
    WithdrawDistance(u32),
    // withdraws the use of a number at a place
    WithdrawUse(usize, u32),
    // finds the greatest closed table
    Tighten,
    // looks at the bound from one point to another
    LookBound(usize, usize),
    // looks at the levels of a place at a moment
    LookLevels(usize, Moment),
}
