// A split made or changed by an operation: a tile put in, one replaced (the Rust's insert_tile_near, tree.rs).
#![tactic(auto)]

pub mod splits;
