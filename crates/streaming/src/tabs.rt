// A group: the Rust's layout_tabs.
ghost use Rattle.std.specs.Prelude.{◌≡◌, ◌-◌, ◌≤◌, ◌<◌, min, length, get_or, take};
ghost use Rattle.rules.specs.Tree.{tile, same_placement};
ghost use Rattle.rules.specs.Tabs.{tab_rects};
ghost use Rattle.rules.specs.Frame.{focus_items, tabs_from, bar_items, layout_tabs};
ghost use Rattle.rules.specs.declared.model.TabBarPlacement.TheVariants as Placements;
ghost use Rattle.columns.specs.Columns.{Slim, bar_from};
ghost use Rattle.streaming.specs.Stream as Streams;

use crate::stream;
use crate::stream::Entry;
use columns::modes;
use rules::frame::{LayoutInput, PaneFrame, Rect, TabBarFrame, TabFrame};
use rules::model::{TabBarPlacement, TileId};

// The Rust's `tabs.active.min(tabs.panes.len() - 1)`.
fn active_index(active: u64, count: usize) -> usize
    requires { 0 < count }
    ensures { (result ≡ min active (count - 1)) × (result < count) }
{
    active.min(count as u64 - 1) as usize
}

// All panes of a group, to the focus order.
fn focus_all(
    items: &mut [[u64; 5]; 2304],
    rects: &mut [[f64; 4]; 2304],
    n: usize,
    panes: &[u64],
) -> usize
    ensures { Streams.stream items.new rects.new result ≡ Streams.push_all (focus_items panes.now) (Streams.stream items.old rects.old n) }
{
    let mut m = n;
    for pane in panes {
        m = stream::push_entry(items, rects, m, Entry::Focus(*pane));
    }
    m
}

// The tabs in a bar, one for each pane.
fn tab_all(
    items: &mut [[u64; 5]; 2304],
    rects: &mut [[f64; 4]; 2304],
    n: usize,
    group: TileId,
    placement: TabBarPlacement,
    bar: Rect,
    active: usize,
    panes: &[u64],
) -> usize
    requires { length panes.now ≤ 16 }
    ensures { Streams.stream items.new rects.new result ≡ Streams.push_all (tabs_from group active 0 panes.now (tab_rects bar placement (length panes.now))) (Streams.stream items.old rects.old n) }
{
    let mut m = n;
    for (index, pane) in panes.iter().enumerate() {
        let tab = TabFrame {
            group,
            pane: *pane,
            rect: bars::tabs::tab_rect(bar, placement, panes.len(), index),
            index,
            active: index == active,
        };
        m = stream::push_entry(items, rects, m, Entry::Tab(tab));
    }
    m
}

// The bar and its tabs, unless the bar is Hidden.
fn bar_all(
    items: &mut [[u64; 5]; 2304],
    rects: &mut [[f64; 4]; 2304],
    n: usize,
    group: TileId,
    placement: TabBarPlacement,
    bar: Rect,
    active: usize,
    panes: &[u64],
) -> usize
    requires few { length panes.now ≤ 16 }
    requires within { active < length panes.now }
    ensures { Streams.stream items.new rects.new result ≡ Streams.push_all (bar_items (same_placement placement Placements.Hidden) group placement bar active panes.now) (Streams.stream items.old rects.old n) }
{
    if let TabBarPlacement::Hidden = placement {
        return n;
    }
    let shown = TabBarFrame {
        group,
        rect: bar,
        placement,
        active_pane: panes[active],
    };
    let m = stream::push_entry(items, rects, n, Entry::TabBar(shown));
    tab_all(items, rects, m, group, placement, bar, active, panes)
}

// layout_tabs, of a group whose head and panes these are.
pub fn layout_tabs(
    items: &mut [[u64; 5]; 2304],
    rects: &mut [[f64; 4]; 2304],
    n: usize,
    id: u64,
    head: [u64; 8],
    panes: [u64; 16],
    rect: Rect,
    input: LayoutInput,
) -> usize
    requires { Slim head }
    ensures { Streams.stream items.new rects.new result ≡ Streams.push_all (layout_tabs (tile id) (bar_from (get_or head 1 0)) (get_or head 3 0) (take (get_or head 4 0) panes) rect input) (Streams.stream items.old rects.old n) }
{
    let group = TileId { slot: id };
    let placement = modes::bar_of(head[1]);
    let own = &panes[..head[4] as usize];
    let m = focus_all(items, rects, n, own);
    if own.is_empty() {
        return m;
    }
    let active = active_index(head[3], own.len());
    let b = bars::tabs::split_tab_bar(rect, placement, input.tab_bar_thickness);
    let k = bar_all(items, rects, m, group, placement, b.bar, active, own);
    let pane = PaneFrame {
        pane: own[active],
        tile: group,
        rect: b.pane,
    };
    stream::push_entry(items, rects, k, Entry::Pane(pane))
}
