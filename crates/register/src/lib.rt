// A register of numbered records. Its memory is claimed when it is made, and what it answers depends on the records that stand in
// it alone, in whatever order they came.
#![tactic(auto)]

pub mod records;
pub mod registers;
