// The plain values that every other crate speaks of. docs/SCOPE.md defines each term.
#![tactic(auto)]

pub mod labels;
pub mod moments;
pub mod refusals;
pub mod slips;
pub mod verdicts;
