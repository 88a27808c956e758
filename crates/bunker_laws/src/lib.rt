// What a bunker means and tells, and the proof that it keeps the laws of a rule. specs/Bunkers.antt has the definitions.
#![tactic(auto)]

pub mod settings;
