// A weighbridge as a rule and as a limit. What it means stands in the crate weighbridge_laws.
#![tactic(auto)]

mod conflicts;
pub mod limit;
mod precedence;
pub mod rule;
mod separation;
pub mod weighbridges;
