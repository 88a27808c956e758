// The sheet of a day: points, distance slips and limits, with the calls on them and what they promise together.
#![tactic(auto)]

pub mod replies;
pub mod running;
pub mod sheets;
