// Lent numbers: which of them name a kind, a mode, an axis or an operation, and what they then mean.
#![tactic(auto)]

pub mod codes;
pub mod operation;
