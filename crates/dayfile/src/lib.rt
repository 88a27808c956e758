// The two files of a day: whether they can be read at all, what they stand for, and where a fault lies.
#![tactic(auto)]

pub mod faults;
pub mod files;
pub mod lines;
pub mod reading;
