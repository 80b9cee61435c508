// What a layout is asked and what it answers: kurbo's Rect and Size, the Rust's LayoutInput and the entries of frame.rs.
// Left out, being fixed in the Rust too: a pane's clip (its rect) and active (true), a bar's viewport (its rect).
use crate::model::{Axis, TabBarPlacement, TileId};

#[derive(Clone, Copy)]
pub struct Rect {
    pub x0: f64,
    pub y0: f64,
    pub x1: f64,
    pub y1: f64,
}

#[derive(Clone, Copy)]
pub struct Size {
    pub width: f64,
    pub height: f64,
}

#[derive(Clone, Copy)]
pub struct LayoutInput {
    pub bounds: Rect,
    pub tab_bar_thickness: f64,
    pub split_handle_thickness: f64,
    pub min_pane_size: Size,
}

#[derive(Clone, Copy)]
pub struct PaneFrame {
    pub pane: u64,
    pub tile: TileId,
    pub rect: Rect,
}

#[derive(Clone, Copy)]
pub struct TabBarFrame {
    pub group: TileId,
    pub rect: Rect,
    pub placement: TabBarPlacement,
    pub active_pane: u64,
}

#[derive(Clone, Copy)]
pub struct TabFrame {
    pub group: TileId,
    pub pane: u64,
    pub rect: Rect,
    pub index: usize,
    pub active: bool,
}

#[derive(Clone, Copy)]
pub struct SplitChildFrame {
    pub split: TileId,
    pub child: TileId,
    pub index: usize,
    pub rect: Rect,
}

#[derive(Clone, Copy)]
pub struct SplitHandleFrame {
    pub split: TileId,
    pub handle: usize,
    pub axis: Axis,
    pub rect: Rect,
}

#[derive(Clone, Copy, PartialEq, Eq)]
pub enum FrameItemId {
    Pane(u64),
    TabBar(TileId),
    Tab { group: TileId, pane: u64 },
    SplitHandle { split: TileId, handle: usize },
}
