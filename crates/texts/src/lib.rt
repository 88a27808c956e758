// Texts that are put together piece by piece and claim no memory.
#![tactic(auto)]

pub mod texts;
