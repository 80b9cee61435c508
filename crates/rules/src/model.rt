// The tree: an arena of 64 slots. The Rust's ids.rs and model.rs; document 01, 'The arena'.

// A tile's name. A struct from the start, so that it can grow a second number (request W-207).
#[derive(Clone, Copy, PartialEq, Eq)]
pub struct TileId {
    pub slot: u64,
}

// A growing list of the Rust: 16 places, of which the first `len` are in use. A length over 16 may come in.
// Kept: places with a length beside them, and no Vec: the library uses no heap.
#[derive(Clone, Copy)]
pub struct Sixteen<T> {
    pub at: [T; 16],
    pub len: usize,
}

pub type Ids = Sixteen<u64>;

pub type Tiles = Sixteen<TileId>;

pub type Reals = Sixteen<f64>;

// Horizontal: children side by side, from left to right.
#[derive(Clone, Copy, PartialEq, Eq)]
pub enum Axis {
    Horizontal,
    Vertical,
}

// On which side of a tile another is put.
#[derive(Clone, Copy, PartialEq, Eq)]
pub enum Placement {
    Before,
    After,
}

#[derive(Clone, Copy, PartialEq, Eq)]
pub enum TabBarPlacement {
    Hidden,
    Top,
    Bottom,
    Left,
    Right,
}

// The Rust's TileNode, whose lists stand beside the kind, in the slot.
#[derive(Clone, Copy)]
pub enum Kind {
    Empty,
    Pane(u64),
    Tabs(TabBarPlacement),
    Split(Axis),
}

// The Rust's NodeSlot. A group uses active and panes; a split children, shares and minima.
#[derive(Clone, Copy)]
pub struct Slot {
    pub kind: Kind,
    pub active: usize,
    pub panes: Ids,
    pub children: Tiles,
    pub shares: Reals,
    pub minima: Reals,
}

#[derive(Clone, Copy)]
pub struct TileTree {
    pub root: TileId,
    pub revision: u64,
    pub slots: [Slot; 64],
}

// One repair performed (the Rust's snapshot.rs).
#[derive(Clone, Copy, PartialEq, Eq)]
pub enum RepairAction {
    RemovedInvalidNode(TileId),
    RepairedActiveTab(TileId),
    RepairedShares(TileId),
    RepairedConstraints(TileId),
    CollapsedSplit(TileId),
    RemovedDuplicatePane { pane: u64, tile: TileId },
}
