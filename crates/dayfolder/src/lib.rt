// The folder of a day: its two files, and the arguments by which a program is told of it.
#![tactic(auto)]

pub mod arguments;
pub mod folders;
pub mod printing;
#[cfg(test)]
mod tests;
