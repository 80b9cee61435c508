// The frame: the whole of the Rust's layout (tree.rs), into lent arrays. The walk is the crate laying.
// The walk reads the arena as columns (see the crate columns) and writes one stream of items, each five numbers and a rectangle, in the order in which
// layout_tile makes them. The lists of a frame are the items of a kind, in that order.
#![tactic(auto)]

use rules::refusal::Answer;

pub mod whole;

// What a layout over lent arrays answers: how many entries of them are in use, 0 if refused.
// Kept: a refusal has a revision and no entries too (`LaysOut`, its clauses `right` and `untouched`), so the answer stands beside them.
#[derive(Clone, Copy)]
pub struct LaidOut {
    pub answer: Answer,
    pub revision: u64,
    pub len: usize,
}
