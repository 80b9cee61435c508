// A row of the stream, read as an entry of a list.
ghost use Rattle.std.specs.Prelude.{◌≡◌, ◌&&◌, ltb};
ghost use Rattle.rules.specs.Frame.{paint_of};
ghost use Rattle.streaming.specs.Stream as Streams;
ghost use Rattle.items.specs.Lists as Lists;

use crate::Painted;
use rules::frame::{
    FrameItemId, PaneFrame, Rect, SplitChildFrame, SplitHandleFrame, TabBarFrame, TabFrame,
};
use rules::model::TileId;
use streaming::stream;
use streaming::stream::Entry;

// Whether an entry is wanted and there is room for it.
pub fn takes(wanted: bool, len: usize, most: usize) -> bool
    ensures { result ≡ (wanted && ltb len most) }
{
    wanted && len < most
}

// Whether an entry of a kind is painted: the focus order and a split's children are not.
pub fn is_painted(kind: u64) -> bool
    ensures { result ≡ Lists.painted kind }
{
    if kind == stream::FOCUS {
        return false;
    }
    kind != stream::SPLIT_CHILD
}

pub fn rect_of(q: [f64; 4]) -> Rect
    ensures { result ≡ Streams.rect_from q }
{
    Rect {
        x0: q[0],
        y0: q[1],
        x1: q[2],
        y1: q[3],
    }
}

// Kept: here and below functions and no `From`: each reads a row and a rectangle, two values, and the types are of `rules`.
pub fn pane_of(row: [u64; 5], q: [f64; 4]) -> PaneFrame
    ensures { result ≡ Lists.pane_from row q }
{
    PaneFrame {
        pane: row[2],
        tile: TileId { slot: row[1] },
        rect: rect_of(q),
    }
}

pub fn bar_of(row: [u64; 5], q: [f64; 4]) -> TabBarFrame
    ensures { result ≡ Lists.bar_frame_from row q }
{
    TabBarFrame {
        group: TileId { slot: row[1] },
        rect: rect_of(q),
        placement: columns::modes::bar_of(row[4]),
        active_pane: row[2],
    }
}

pub fn tab_of(row: [u64; 5], q: [f64; 4]) -> TabFrame
    ensures { result ≡ Lists.tab_from row q }
{
    TabFrame {
        group: TileId { slot: row[1] },
        pane: row[2],
        rect: rect_of(q),
        index: row[3] as usize,
        active: row[4] != 0,
    }
}

pub fn child_of(row: [u64; 5], q: [f64; 4]) -> SplitChildFrame
    ensures { result ≡ Lists.child_from row q }
{
    SplitChildFrame {
        split: TileId { slot: row[1] },
        child: TileId { slot: row[2] },
        index: row[3] as usize,
        rect: rect_of(q),
    }
}

pub fn handle_of(row: [u64; 5], q: [f64; 4]) -> SplitHandleFrame
    ensures { result ≡ Lists.handle_from row q }
{
    SplitHandleFrame {
        split: TileId { slot: row[1] },
        handle: row[3] as usize,
        axis: columns::modes::axis_of(row[4]),
        rect: rect_of(q),
    }
}

// A row and its rectangle, read as the entry that was pushed. A kind past the last is a handle.
pub fn entry_of(row: [u64; 5], q: [f64; 4]) -> Entry
    ensures { Streams.item_of result ≡ Streams.item_from row q }
{
    match row[0] {
        stream::FOCUS => Entry::Focus(row[2]),
        stream::PANE => Entry::Pane(pane_of(row, q)),
        stream::TAB_BAR => Entry::TabBar(bar_of(row, q)),
        stream::TAB => Entry::Tab(tab_of(row, q)),
        stream::SPLIT_CHILD => Entry::SplitChild(child_of(row, q)),
        _ => Entry::SplitHandle(handle_of(row, q)),
    }
}

// What the paint order names in a row of a kind that is painted. Any row has an answer: what is no pane, tab bar or tab is read as a handle.
pub fn painted_of(row: [u64; 5]) -> Painted
    ensures { result.item ≡ Lists.painted_from row }
{
    let tile = TileId { slot: row[1] };
    let item = match row[0] {
        stream::PANE => FrameItemId::Pane(row[2]),
        stream::TAB_BAR => FrameItemId::TabBar(tile),
        stream::TAB => FrameItemId::Tab {
            group: tile,
            pane: row[2],
        },
        _ => FrameItemId::SplitHandle {
            split: tile,
            handle: row[3] as usize,
        },
    };
    Painted { item }
}

// What the paint order names of an entry that was read: nothing of a pane of the focus order, nor of a split's child.
pub fn painted_in(e: Entry) -> Option<FrameItemId>
    ensures { Lists.taken result ≡ paint_of (Streams.item_of e) }
{
    match e {
        Entry::Focus(_) | Entry::SplitChild(_) => None,
        Entry::Pane(f) => Some(FrameItemId::Pane(f.pane)),
        Entry::TabBar(f) => Some(FrameItemId::TabBar(f.group)),
        Entry::Tab(TabFrame { group, pane, .. }) => Some(FrameItemId::Tab { group, pane }),
        Entry::SplitHandle(f) => Some(FrameItemId::SplitHandle {
            split: f.split,
            handle: f.handle,
        }),
    }
}
