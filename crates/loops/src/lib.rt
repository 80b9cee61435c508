// Loops over a split's lists: those of util.rs's `solve_lengths_with_min`, and tests of each entry.
#![tactic(auto)]

pub mod fills;
pub mod given;
pub mod kids;
pub mod sums;
pub mod tests;
