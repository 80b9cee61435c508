// Every plain type of Dimbovala, by value, in the names of the Rust crate understory_tiling.
// There is no logic here: what each value means is said in specs/, which docs/RULES.md maps.
#![tactic(auto)]

pub mod frame;
pub mod model;
pub mod operation;
pub mod refusal;
pub mod solving;
