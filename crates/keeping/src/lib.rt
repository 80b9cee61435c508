// What a split keeps of its children, and how it is stored: the end of the Rust's normalize_split (tree.rs).
#![tactic(auto)]

pub mod splits;
