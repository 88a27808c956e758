// The tables of a day: what each value line stands for, and which line is due.
#![tactic(auto)]

pub mod due;
pub mod faults;
mod labels;
pub mod rows;
