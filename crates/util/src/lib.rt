// The Rust's util.rs, its solver aside, and the two functions on constraints at the end of tree.rs.
#![tactic(auto)]

pub mod minima;
pub mod shares;
