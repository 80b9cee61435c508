// The lists of panes, tab bars and tabs, out of the stream.
ghost use Rattle.std.specs.Prelude.{◌≡◌, ◌≤◌, take};
ghost use Rattle.rules.specs.Frame.{gather, pane_of, bar_of, tab_of};
ghost use Rattle.streaming.specs.Stream.{items_from};
ghost use Rattle.items.specs.Lists.{Sorted};

use crate::sorting::sorted;
use crate::{Panes, TabBars, Tabs};
use items::decode;
use streaming::stream::Entry;

// LayoutFrame::panes
pub fn panes(items: &[[u64; 5]; 2304], rects: &[[f64; 4]; 2304], n: usize) -> Panes
    requires { n ≤ 2304 }
    ensures { Sorted 64 (gather pane_of (items_from (take n items.now) (take n rects.now))) result.at result.len }
{
    let none = decode::pane_of([0u64; 5], [0.0f64; 4]);
    sorted(items, rects, n, none, |e| match e {
        Entry::Pane(f) => Some(f),
        _ => None,
    })
}

// LayoutFrame::tab_bars
pub fn tab_bars(items: &[[u64; 5]; 2304], rects: &[[f64; 4]; 2304], n: usize) -> TabBars
    requires { n ≤ 2304 }
    ensures { Sorted 64 (gather bar_of (items_from (take n items.now) (take n rects.now))) result.at result.len }
{
    let none = decode::bar_of([0u64; 5], [0.0f64; 4]);
    sorted(items, rects, n, none, |e| match e {
        Entry::TabBar(f) => Some(f),
        _ => None,
    })
}

// LayoutFrame::tabs
pub fn tabs(items: &[[u64; 5]; 2304], rects: &[[f64; 4]; 2304], n: usize) -> Tabs
    requires { n ≤ 2304 }
    ensures { Sorted 1024 (gather tab_of (items_from (take n items.now) (take n rects.now))) result.at result.len }
{
    let none = decode::tab_of([0u64; 5], [0.0f64; 4]);
    sorted(items, rects, n, none, |e| match e {
        Entry::Tab(f) => Some(f),
        _ => None,
    })
}
