// A group changed by an operation: its active index, a pane put in, a pane moved within it (the Rust's TabNode, tree.rs).
#![tactic(auto)]

pub mod groups;
