// Whether two trees, lists or numbers are the same, bit for bit: what the stored answers are compared by.
#![tactic(auto)]

pub mod same;
