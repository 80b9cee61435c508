// A spec's bytes made a tree and repaired: the Rust's from_spec (tree.rs), over the crates `table`, `checks` and `build`.
// The Rust's spec is a tree of enums; here it is a flat table in bytes (document 01, 'Spec bytes'), read where it stands.
#![tactic(auto)]

pub mod whole;
