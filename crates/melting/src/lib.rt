// A split's lists in a repair: read, mended, and melted into their parent's (the Rust's normalize_split, tree.rs).
#![tactic(auto)]

use sifting::Counts;

pub mod rows;

// How many children are kept so far in the three arrays that a split lends, and whether anything about them changed.
// Kept: the arrays stand beside it, one by one: what a struct of `&mut` arrays lends is not tied to them after the call (the goal `returns` stays open).
#[derive(Clone, Copy)]
pub struct Tally {
    pub len: usize,
    pub moved: bool,
}

// What is known after one more child was placed; the child itself stands in the lent arrays.
#[derive(Clone, Copy)]
pub struct Placing {
    pub tally: Tally,
    pub counts: Counts,
}
