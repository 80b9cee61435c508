// The small parts of what crosses the boundary: lent heads made tidy, an answer and actions written to what is lent.
#![tactic(auto)]

pub mod actions;
pub mod tidy;
pub mod told;
