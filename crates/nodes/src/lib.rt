// The parts of an operation: finding, targets, taking a pane out, groups and splits changed (the Rust's tree.rs, 447 to 582, 651 to 741 and 1126 to 1180).
// A tile is found by a scan of the 64 slots, and not by a walk: on a sound tree occupied slots are the tiles that are read, each once
// (specs/Find.antt, and Trees.antt of the crate docking).
#![tactic(auto)]

use rules::model::{Axis, Placement, TileId};

pub mod find;
pub mod slots;
pub mod take;
pub mod targets;

// Where a pane stands.
#[derive(Clone, Copy)]
pub enum PaneLocation {
    Tile { tile: TileId },
    InTabs { group: TileId, index: usize },
}

// The split that holds a tile, and the place in it: find_parent's (TileId, usize).
#[derive(Clone, Copy)]
pub struct Holder {
    pub split: TileId,
    pub index: usize,
}

// Where a tile goes: insert_tile_near's target, axis, placement and share.
#[derive(Clone, Copy)]
pub struct Beside {
    pub target: TileId,
    pub axis: Axis,
    pub placement: Placement,
    pub share: f64,
}

// The lowest three slots that were empty when the call began, as far as there are three.
#[derive(Clone, Copy)]
pub struct Spares {
    pub first: Option<TileId>,
    pub second: Option<TileId>,
    pub third: Option<TileId>,
}
