// The output of a tightened day, written into the caller's buffer.
#![tactic(auto)]

pub mod writing;
