// Repair of an arena's columns in place: the Rust's normalize_with_report (tree.rs); and the lone empty root.
#![tactic(auto)]

pub mod lone;
pub mod settle;

// What an accepted repair of columns came to: the root after it and how many actions are listed.
#[derive(Clone, Copy)]
pub struct Settled {
    pub root: u64,
    pub count: usize,
}
