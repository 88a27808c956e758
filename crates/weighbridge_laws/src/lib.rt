// What a weighbridge means and tells, and the proof that it keeps the laws of a rule. specs/Weighbridges.antt has the definitions.
#![tactic(auto)]
