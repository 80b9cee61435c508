// The stream of a frame's items, and a group's part of it (the Rust's layout_tabs, tree.rs).
#![tactic(auto)]

pub mod stream;
pub mod tabs;
