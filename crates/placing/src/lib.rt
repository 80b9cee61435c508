// Where things go: a layout's input, and the lengths and rectangles of a split's children (the Rust's layout_split, tree.rs).
#![tactic(auto)]

pub mod input;
pub mod splits;
