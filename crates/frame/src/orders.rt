// The focus order and the paint order, out of the stream.
ghost use Rattle.std.specs.Prelude.{◌≡◌, ◌≤◌, take};
ghost use Rattle.rules.specs.Frame.{gather, focus_of, paint_of};
ghost use Rattle.streaming.specs.Stream.{items_from};
ghost use Rattle.items.specs.Lists.{Sorted};

use crate::sorting::sorted;
use crate::{FocusOrder, PaintOrder};
use items::decode;
use streaming::stream::Entry;

// LayoutFrame::focus_order
pub fn focus_order(items: &[[u64; 5]; 2304], rects: &[[f64; 4]; 2304], n: usize) -> FocusOrder
    requires { n ≤ 2304 }
    ensures { Sorted 1024 (gather focus_of (items_from (take n items.now) (take n rects.now))) result.at result.len }
{
    sorted(items, rects, n, 0, |e| match e {
        Entry::Focus(pane) => Some(pane),
        _ => None,
    })
}

// LayoutFrame::paint_order
pub fn paint_order(items: &[[u64; 5]; 2304], rects: &[[f64; 4]; 2304], n: usize) -> PaintOrder
    requires { n ≤ 2304 }
    ensures { Sorted 1216 (gather paint_of (items_from (take n items.now) (take n rects.now))) result.at result.len }
{
    let none = decode::painted_of([0u64; 5]).item;
    sorted(items, rects, n, none, decode::painted_in)
}
