// The stream of items: the Rust's pushes to a LayoutFrame's lists. 2,304 places always suffice for a sound tree.
ghost use Rattle.std.specs.Prelude.{◌≡◌};
ghost use Rattle.streaming.specs.Stream as Streams;

use rules::frame::{PaneFrame, Rect, SplitChildFrame, SplitHandleFrame, TabBarFrame, TabFrame};

// Kept: C and the hosts read an entry's kind as a number in a row of five (tiling_c's `lay`; `LaysOut`, its clause `codes`).
pub const FOCUS: u64 = 0;

pub const PANE: u64 = 1;

pub const TAB_BAR: u64 = 2;

pub const TAB: u64 = 3;

pub const SPLIT_CHILD: u64 = 4;

pub const SPLIT_HANDLE: u64 = 5;

// What is pushed: an entry of one of a LayoutFrame's lists.
#[derive(Clone, Copy)]
pub enum Entry {
    Focus(u64),
    Pane(PaneFrame),
    TabBar(TabBarFrame),
    Tab(TabFrame),
    SplitChild(SplitChildFrame),
    SplitHandle(SplitHandleFrame),
}

// An entry as five numbers.
pub fn code_of(e: Entry) -> [u64; 5]
    ensures { result ≡ Streams.code_of (Streams.item_of e) }
{
    match e {
        Entry::Focus(pane) => [FOCUS, 0, pane, 0, 0],
        Entry::Pane(f) => [PANE, f.tile.slot, f.pane, 0, 0],
        Entry::TabBar(f) => [TAB_BAR, f.group.slot, f.active_pane, 0, f.placement as u64],
        Entry::Tab(f) => [TAB, f.group.slot, f.pane, f.index as u64, f.active as u64],
        Entry::SplitChild(f) => [SPLIT_CHILD, f.split.slot, f.child.slot, f.index as u64, 0],
        Entry::SplitHandle(f) => [
            SPLIT_HANDLE,
            f.split.slot,
            0,
            f.handle as u64,
            f.axis as u64,
        ],
    }
}

// An entry's rectangle; a pane of the focus order has none, and zeros stand for it.
pub fn rect_of(e: Entry) -> Rect
    ensures { result ≡ Streams.rect_of (Streams.item_of e) }
{
    match e {
        Entry::Focus(_) => Rect {
            x0: 0.0,
            y0: 0.0,
            x1: 0.0,
            y1: 0.0,
        },
        Entry::Pane(f) => f.rect,
        Entry::TabBar(f) => f.rect,
        Entry::Tab(f) => f.rect,
        Entry::SplitChild(f) => f.rect,
        Entry::SplitHandle(f) => f.rect,
    }
}

// One row more; nothing where the stream is full.
// Kept: C lends the two arrays one by one (`tiling_layout_into`), and a struct of the two `&mut` leaves a caller's goal `returns` open: its fields' final values are not tied to what was lent.
pub fn push(
    items: &mut [[u64; 5]; 2304],
    rects: &mut [[f64; 4]; 2304],
    n: usize,
    row: [u64; 5],
    rect: Rect,
) -> usize
    ensures { Streams.stream items.new rects.new result ≡ Streams.push_row row (Streams.sides rect) (Streams.stream items.old rects.old n) }
{
    if n < 2304 {
        items[n] = row;
        rects[n] = [rect.x0, rect.y0, rect.x1, rect.y1];
        return n + 1;
    }
    n
}

// One entry more, as the Rust's `focus_order.push(..)`, `panes.push(..)` and so on.
pub fn push_entry(
    items: &mut [[u64; 5]; 2304],
    rects: &mut [[f64; 4]; 2304],
    n: usize,
    e: Entry,
) -> usize
    ensures { Streams.stream items.new rects.new result ≡ Streams.push_item (Streams.item_of e) (Streams.stream items.old rects.old n) }
{
    push(items, rects, n, code_of(e), rect_of(e))
}
