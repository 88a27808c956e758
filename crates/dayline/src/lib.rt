// What stands in a line of a day file: parts, fields and numbers.
#![tactic(auto)]

pub mod fields;
mod numbers;
pub mod parts;
