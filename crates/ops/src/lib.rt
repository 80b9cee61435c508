// Operations on a tree: the Rust's apply, the operations, insert_tile_near and insert_tile_at_target (tree.rs, 225 to 238, 346 to 362, 447 to 719).
// They work in place on columns that the caller lends; the call of a tree by value copies it into columns and back.
#![tactic(auto)]

pub mod finish;
pub mod whole;
