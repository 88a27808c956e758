// Rules and limits: what each has to tell and to keep, and two limits joined into one.
#![tactic(auto)]

pub mod limit;
pub mod pair;
pub mod pairs;
pub mod rule;
pub mod single;
