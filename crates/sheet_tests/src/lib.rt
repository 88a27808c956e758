// Tests of the sheet over two bunkers and a weighbridge, with numbers worked out by hand.
#![tactic(auto)]

#[cfg(test)]
mod day;
