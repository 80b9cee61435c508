// A frame by value: the Rust's LayoutFrame (frame.rs), its seven lists sorted out of the stream that the crate layout writes.
#![tactic(auto)]

use rules::frame::{
    FrameItemId, PaneFrame, SplitChildFrame, SplitHandleFrame, TabBarFrame, TabFrame,
};
use rules::refusal::Answer;

pub mod branches;
pub mod leaves;
pub mod orders;
pub mod sorting;
pub mod whole;

// One of the Rust's growing lists, in N places.
// Kept: places with a length beside them, and no Vec: the library uses no heap.
#[derive(Clone, Copy)]
pub struct FrameList<T, const N: usize> {
    pub at: [T; N],
    pub len: usize,
}

// The places of each suffice for every sound tree.
pub type Panes = FrameList<PaneFrame, 64>;

pub type TabBars = FrameList<TabBarFrame, 64>;

pub type Tabs = FrameList<TabFrame, 1024>;

pub type SplitChildren = FrameList<SplitChildFrame, 64>;

pub type SplitHandles = FrameList<SplitHandleFrame, 64>;

pub type FocusOrder = FrameList<u64, 1024>;

pub type PaintOrder = FrameList<FrameItemId, 1216>;

// What a layout answers: the frame of a revision; or a refusal, and empty lists.
// Kept: a refusal has a revision and empty lists too (`layout`'s clause on `view_layout`), so the answer stands beside them.
#[derive(Clone, Copy)]
pub struct Layout {
    pub answer: Answer,
    pub revision: u64,
    pub panes: Panes,
    pub tab_bars: TabBars,
    pub tabs: Tabs,
    pub split_children: SplitChildren,
    pub split_handles: SplitHandles,
    pub focus_order: FocusOrder,
    pub paint_order: PaintOrder,
}
