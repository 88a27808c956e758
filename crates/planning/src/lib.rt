// A day planned from its two files: read, played on a sheet, tightened and written.
#![tactic(auto)]

mod bunkers;
pub mod faults;
pub mod plans;
