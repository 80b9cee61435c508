// A spec's tree before its repair (the Rust's from_spec, tree.rs, up to normalize).
#![tactic(auto)]

pub mod draft;
