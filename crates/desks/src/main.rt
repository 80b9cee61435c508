// Desks by hand, laid out by the compiled code: document 01's E11 and E12, the empty desk, one with all 64 slots in use, and the deepest.
#![tactic(auto)]

ghost use Rattle.std.specs.Prelude.{◌<◌};

use frame::{Layout, Panes, Tabs};
use rules::frame::{LayoutInput, Rect, Size};
use rules::model::{Axis, Kind, Sixteen, Slot, TabBarPlacement, TileId, TileTree};
use std::io;

// A slot of a kind, with no list in use.
fn bare(kind: Kind) -> Slot {
    Slot {
        kind,
        active: 0,
        panes: lists::empty(),
        children: lists::empty(),
        shares: lists::empty(),
        minima: lists::empty(),
    }
}

// A group of n panes, 1, 2 and so on.
fn group(bar: TabBarPlacement, n: usize) -> Slot {
    let at = [1u64, 2, 3, 4, 5, 6, 7, 8, 9, 10, 11, 12, 13, 14, 15, 16];
    Slot {
        panes: Sixteen { at, len: n },
        ..bare(Kind::Tabs(bar))
    }
}

// Tiles in a row, from one on.
fn tiles_from(first: u64) -> [TileId; 16] {
    let base = first.min(1000);
    let mut at = [TileId { slot: base }; 16];
    for j in 1..16 {
        at[j] = TileId {
            slot: base + j as u64,
        };
    }
    at
}

// A split of n children in a row, from the first on, each with the share 1.
fn split(axis: Axis, n: usize, first: u64) -> Slot {
    Slot {
        children: Sixteen {
            at: tiles_from(first),
            len: n,
        },
        shares: Sixteen {
            at: [1.0f64; 16],
            len: n,
        },
        ..bare(Kind::Split(axis))
    }
}

fn tree(slots: [Slot; 64]) -> TileTree {
    let root = TileId { slot: 0 };
    TileTree {
        root,
        revision: 3,
        slots,
    }
}

// A desk from zero on, with no minimum.
fn input(width: f64, height: f64, handle: f64, bar: f64) -> LayoutInput {
    let bounds = Rect {
        x0: 0.0,
        y0: 0.0,
        x1: width,
        y1: height,
    };
    let least = Size {
        width: 0.0,
        height: 0.0,
    };
    LayoutInput {
        bounds,
        tab_bar_thickness: bar,
        split_handle_thickness: handle,
        min_pane_size: least,
    }
}

fn is_rect(r: Rect, x0: f64, y0: f64, x1: f64, y1: f64) -> bool {
    r.x0 == x0 && r.y0 == y0 && r.x1 == x1 && r.y1 == y1
}

// Whether the pane at a place is this one, there.
fn is_pane(l: &Panes, j: usize, pane: u64, x0: f64, y0: f64, x1: f64, y1: f64) -> bool {
    match l.at.get(j) {
        Some(f) => f.pane == pane && is_rect(f.rect, x0, y0, x1, y1),
        None => false,
    }
}

fn is_tab(l: &Tabs, j: usize, x0: f64, x1: f64) -> bool {
    match l.at.get(j) {
        Some(f) => f.index == j && is_rect(f.rect, x0, 0.0, x1, 10.0),
        None => false,
    }
}

// Accepted, with so many entries in the lists.
fn counts(
    r: &Layout,
    panes: usize,
    tabs: usize,
    handles: usize,
    focus: usize,
    paint: usize,
) -> bool {
    r.answer.is_ok()
        && r.panes.len == panes
        && r.tabs.len == tabs
        && r.split_handles.len == handles
        && r.focus_order.len == focus
        && r.paint_order.len == paint
}

// Document 01's E11: two panes side by side, with a handle.
fn e11() -> bool {
    let mut slots = [bare(Kind::Empty); 64];
    slots[0] = split(Axis::Horizontal, 2, 1);
    slots[1] = bare(Kind::Pane(1));
    slots[2] = bare(Kind::Pane(2));
    let r = frame::whole::layout(tree(slots), input(100.0, 50.0, 4.0, 0.0));
    is_pane(&r.panes, 0, 1, 0.0, 0.0, 48.0, 50.0)
        && is_pane(&r.panes, 1, 2, 52.0, 0.0, 100.0, 50.0)
        && is_rect(r.split_handles.at[0].rect, 48.0, 0.0, 52.0, 50.0)
        && counts(&r, 2, 0, 1, 2, 3)
}

// Document 01's E12: three tabs above the active pane.
fn e12() -> bool {
    let mut slots = [bare(Kind::Empty); 64];
    slots[0] = group(TabBarPlacement::Top, 3);
    let r = frame::whole::layout(tree(slots), input(90.0, 40.0, 0.0, 10.0));
    is_pane(&r.panes, 0, 1, 0.0, 10.0, 90.0, 40.0)
        && is_tab(&r.tabs, 0, 0.0, 30.0)
        && is_tab(&r.tabs, 1, 30.0, 60.0)
        && is_tab(&r.tabs, 2, 60.0, 90.0)
        && counts(&r, 1, 3, 0, 3, 5)
}

// The empty desk, a lone Hidden group: accepted, and nothing on it.
fn empty() -> bool {
    let mut slots = [bare(Kind::Empty); 64];
    slots[0] = group(TabBarPlacement::Hidden, 0);
    let r = frame::whole::layout(tree(slots), input(90.0, 40.0, 4.0, 10.0));
    counts(&r, 0, 0, 0, 0, 0)
}

// All 64 slots in use: nine columns of six panes.
fn full() -> bool {
    let mut slots = [bare(Kind::Empty); 64];
    slots[0] = split(Axis::Horizontal, 9, 1);
    for j in 1..64 {
        slots[j] = column_or_pane(j as u64);
    }
    let r = frame::whole::layout(tree(slots), input(932.0, 620.0, 4.0, 10.0));
    is_pane(&r.panes, 0, 10, 0.0, 0.0, 100.0, 100.0)
        && is_pane(&r.panes, 53, 63, 832.0, 520.0, 932.0, 620.0)
        && counts(&r, 54, 0, 53, 54, 107)
}

// The slot at j of the desk above: a column, whose panes are the next six, or a pane.
fn column_or_pane(j: u64) -> Slot {
    if j < 10 {
        return split(Axis::Vertical, 6, 4 + 6 * j);
    }
    bare(Kind::Pane(j))
}

// The deepest desk, 31 splits one in another, each with a pane before the rest.
fn deep() -> bool {
    let mut slots = [bare(Kind::Empty); 64];
    for j in 0..63 {
        slots[j] = nested(j as u64);
    }
    let r = frame::whole::layout(tree(slots), input(1000.0, 1000.0, 0.0, 0.0));
    is_pane(&r.panes, 0, 1, 0.0, 0.0, 500.0, 1000.0)
        && is_pane(&r.panes, 1, 3, 500.0, 0.0, 1000.0, 500.0)
        && counts(&r, 32, 0, 31, 32, 63)
}

// The slot at j of the desk above: a split at every even slot but the last, across and down in turn.
fn nested(j: u64) -> Slot
    requires { j < 64 }
{
    if j == 62 {
        return bare(Kind::Pane(62));
    }
    if j % 4 == 0 {
        return split(Axis::Horizontal, 2, j + 1);
    }
    if j % 4 == 2 {
        return split(Axis::Vertical, 2, j + 1);
    }
    bare(Kind::Pane(j))
}

fn main(rt: HostRuntime) -> io::Result<()> {
    let desks = [e11(), e12(), empty(), full(), deep()];
    let agreed = desks.iter().filter(|yes| **yes).count();
    println!(rt; "{agreed} of 5 desks agree")
}
