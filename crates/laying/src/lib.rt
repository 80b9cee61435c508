// The walk of a layout (the Rust's layout_tile, layout_tabs and layout_split, tree.rs), over lent columns.
#![tactic(auto)]

pub mod tiles;
