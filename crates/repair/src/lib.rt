// Repair and soundness: the Rust's repair and normalize_with_report (tree.rs). The walk is the crate `normalize`, over the columns of the crate `columns`.
#![tactic(auto)]

use columns::Report;
use rules::model::TileTree;
use rules::refusal::Answer;

pub mod whole;

// What a repair answers: the repaired tree and what was done; or the tree as given, and nothing.
// Kept: a refusal hands back the tree too (`repair`'s clause `result.tree ≡ t`), so the answer stands beside it.
#[derive(Clone, Copy)]
pub struct Repairing {
    pub answer: Answer,
    pub tree: TileTree,
    pub actions: Report,
}
