// What a host asks of a tree: the Rust's ops.rs; document 01, 'Operations'.
use crate::model::{Axis, Placement, TileId};

// Where a moved pane goes. The one beside a tile carries its own split ratio.
#[derive(Clone, Copy)]
pub enum DockTarget {
    Root,
    Split {
        tile: TileId,
        axis: Axis,
        placement: Placement,
        ratio: f64,
    },
    // At a place in the group, or at its end.
    TabInto {
        group: TileId,
        index: Option<usize>,
    },
}

#[derive(Clone, Copy)]
pub enum TileOp {
    ActivatePane {
        pane: u64,
    },
    ClosePane {
        pane: u64,
    },
    SplitPane {
        pane: u64,
        axis: Axis,
        new_pane: u64,
        placement: Placement,
        share: f64,
    },
    MovePane {
        pane: u64,
        target: DockTarget,
    },
    ReorderTab {
        group: TileId,
        pane: u64,
        index: usize,
    },
}
