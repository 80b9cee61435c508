// The solver: a child in its work, and what the call answers.
use crate::model::Reals;
use crate::refusal::Answer;

// A child in the solver's work: the Rust's parallel lists shares, min_major, lengths and fixed, one entry of each.
#[derive(Clone, Copy)]
pub struct Kid {
    pub share: f64,
    pub minimum: f64,
    pub size: f64,
    pub fixed: bool,
}

// What `solve` answers: the lengths and the number of passes, or a refusal with no lengths and no passes.
// Kept: a refusal has empty lengths too (`solve`'s clauses on `view_solution` and `Clear`), so the answer stands beside them.
#[derive(Clone, Copy)]
pub struct Solution {
    pub answer: Answer,
    pub lengths: Reals,
    pub passes: u64,
}
