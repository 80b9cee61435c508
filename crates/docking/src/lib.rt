// A tile put beside another (the Rust's insert_tile_near, tree.rs), and what operations come to and answer.
#![tactic(auto)]

use rules::model::{TileId, TileTree};
use rules::refusal::Answer;

pub mod near;

// What an operation changes before the revision and the repair: the columns hold the slots as changed under this root, and a fresh root would go into the
// spare slot. A step comes to Ok(None) where nothing changes (the Rust's Ok(false)); a refusal may leave the columns half changed.
#[derive(Clone, Copy)]
pub struct Changed {
    pub root: u64,
    pub spare: Option<TileId>,
}

// The root and the revision of another tree, which the columns hold at the end. Where apply of columns comes to Ok(None), they hold the same tree.
#[derive(Clone, Copy)]
pub struct AppliedIn {
    pub root: u64,
    pub revision: u64,
}

// What an operation answers: the changed tree; or the tree as given, where it was refused or nothing changed.
// Kept: a refusal hands back the tree too (`apply`'s clause `result.tree ≡ t`), so the answer stands beside it.
#[derive(Clone, Copy)]
pub struct Applying {
    pub answer: Answer,
    pub tree: TileTree,
}
