// The Rust's spec.rs: the entries of a table that was read, and the checks on them in preorder.
#![tactic(auto)]

pub mod entry;
pub mod validate;
