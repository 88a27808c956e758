// The worked days, run on the sheet itself.
#![tactic(auto)]

#[cfg(test)]
mod days;
