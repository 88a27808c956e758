// Tests of `dayfile` on examples.
#![tactic(auto)]

#[cfg(test)]
mod printed;
#[cfg(test)]
mod reading;
#[cfg(test)]
mod unreadable;
