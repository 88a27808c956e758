// Calls on a sheet, what stands after a list of them, and what a sheet then promises.
#![tactic(auto)]

pub mod answers;
pub mod calls;
