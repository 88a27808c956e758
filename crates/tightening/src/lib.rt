// The greatest closed table of a day: rounds of closing the bounds and asking the limits, until nothing falls.
#![tactic(auto)]

mod asked;
mod rounds;
pub mod tighten;
