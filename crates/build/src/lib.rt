// A table's slots: the Rust's push_spec (tree.rs).
#![tactic(auto)]

pub mod push;
pub mod slot;
pub mod slots;
