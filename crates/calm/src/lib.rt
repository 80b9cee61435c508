// Soundness by a walk that only reads: repair's walk (normalize_node and normalize_split, tree.rs) up to the first thing that it would note. Nothing is
// written but which slots are claimed and which panes were seen, so the columns are read where they stand.
// Each step answers how many panes were seen: Ok where the walk goes on, and Err where repair would note something.
#![tactic(auto)]

pub mod leaves;
pub mod nodes;
pub mod split_lists;
pub mod whole;
