// What crosses the boundary: lent numbers read as an arena, an operation or an input, and answers, arenas and actions written to them.
#![tactic(auto)]

pub mod back;
