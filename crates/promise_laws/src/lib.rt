// What follows from the laws of a rule for closed tables and the plans that obey.
#![tactic(auto)]
