// The lists of a split's children and handles, out of the stream.
ghost use Rattle.std.specs.Prelude.{◌≡◌, ◌≤◌, take};
ghost use Rattle.rules.specs.Frame.{gather, child_of, handle_of};
ghost use Rattle.streaming.specs.Stream.{items_from};
ghost use Rattle.items.specs.Lists.{Sorted};

use crate::sorting::sorted;
use crate::{SplitChildren, SplitHandles};
use items::decode;
use streaming::stream::Entry;

// LayoutFrame::split_children
pub fn split_children(items: &[[u64; 5]; 2304], rects: &[[f64; 4]; 2304], n: usize) -> SplitChildren
    requires { n ≤ 2304 }
    ensures { Sorted 64 (gather child_of (items_from (take n items.now) (take n rects.now))) result.at result.len }
{
    let none = decode::child_of([0u64; 5], [0.0f64; 4]);
    sorted(items, rects, n, none, |e| match e {
        Entry::SplitChild(f) => Some(f),
        _ => None,
    })
}

// LayoutFrame::split_handles
pub fn split_handles(items: &[[u64; 5]; 2304], rects: &[[f64; 4]; 2304], n: usize) -> SplitHandles
    requires { n ≤ 2304 }
    ensures { Sorted 64 (gather handle_of (items_from (take n items.now) (take n rects.now))) result.at result.len }
{
    let none = decode::handle_of([0u64; 5], [0.0f64; 4]);
    sorted(items, rects, n, none, |e| match e {
        Entry::SplitHandle(f) => Some(f),
        _ => None,
    })
}
