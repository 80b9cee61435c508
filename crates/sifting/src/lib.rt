// The leaves of a repair: panes and groups (the Rust's normalize_node, tree.rs), and what a step of the walk hands on.
#![tactic(auto)]

use rules::model::{Ids, Reals};

pub mod leaves;
pub mod panes;

// How many panes were seen and how many actions are listed.
#[derive(Clone, Copy)]
pub struct Counts {
    pub seen: usize,
    pub acts: usize,
}

// What is left of a tile: the tile that stands for it, nothing, or a list of over 16, which ends the walk.
// Kept: `Walked` says as much of the columns and the counts of a walk that ended so as of any other; an Err would come without the counts that it speaks of.
#[derive(Clone, Copy)]
pub enum Kept {
    At(u64),
    Gone,
    Wide,
}

// A split's lists: as they stand in its slot, or as the children kept so far, and whether anything about them changed.
#[derive(Clone, Copy)]
pub struct Kids {
    pub children: Ids,
    pub shares: Reals,
    pub minima: Reals,
    pub moved: bool,
}

// What a step of the walk answers.
#[derive(Clone, Copy)]
pub struct Walk {
    pub kept: Kept,
    pub counts: Counts,
}
