// The five operations, before the revision and the repair (the Rust's apply_inner, tree.rs), in place on an arena's columns.
#![tactic(auto)]

pub mod operations;
pub mod reorder;
