// Bounds between up to 64 points, and their closure.
#![tactic(auto)]

pub mod bounds;
pub mod tables;
