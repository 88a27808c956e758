// A bunker as a rule and as a limit. What it means stands in the crate bunker_laws.
#![tactic(auto)]

pub mod bunkers;
mod levels;
pub mod limit;
mod moments;
mod options;
mod profile;
mod propagate;
mod refusing;
mod requiring;
pub mod rule;
mod stretches;
mod vouching;
