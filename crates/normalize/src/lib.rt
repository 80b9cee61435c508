// normalize_node and normalize_split (tree.rs): the walk of a repair, over lent columns.
#![tactic(auto)]

use rules::model::Reals;
use sifting::{Counts, Kids};

pub mod nodes;

// A split whose slot is claimed: its axis, its shares as given, its lists mended, and the counts.
#[derive(Clone, Copy)]
pub struct Opened {
    pub mode: u64,
    pub given: Reals,
    pub rows: Kids,
    pub counts: Counts,
}
