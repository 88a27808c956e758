// Tests of the output, byte by byte.
#![tactic(auto)]

#[cfg(test)]
mod trailer;
