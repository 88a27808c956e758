// Tests of bunkers, weighbridges and pairs on tables worked out by hand.
#![tactic(auto)]

#[cfg(test)]
mod bunkers;
#[cfg(test)]
mod tables_asked;
#[cfg(test)]
mod weighbridges;
