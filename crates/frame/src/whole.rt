// The whole of a layout by value: the Rust's layout.
ghost use Rattle.std.specs.Prelude.{◌≡◌};
ghost use Rattle.rules.specs.Tree.{view};
ghost use Rattle.rules.specs.Frame as Rule;
ghost use Rattle.frame.specs.Frames.{view_layout};

use crate::{Layout, branches, leaves, orders};
use rules::frame::LayoutInput;
use rules::model::TileTree;

// Lays out any tree. A refusal has empty lists.
pub fn layout(t: TileTree, input: LayoutInput) -> Layout
    ensures { view_layout result ≡ Rule.layout (view t) input }
{
    let mut items = [[0u64; 5]; 2304];
    let mut rects = [[0.0f64; 4]; 2304];
    let l = layout::whole::layout_into(t, input, &mut items, &mut rects);
    let n = l.len;
    Layout {
        answer: l.answer,
        revision: l.revision,
        panes: leaves::panes(&items, &rects, n),
        tab_bars: leaves::tab_bars(&items, &rects, n),
        tabs: leaves::tabs(&items, &rects, n),
        split_children: branches::split_children(&items, &rects, n),
        split_handles: branches::split_handles(&items, &rects, n),
        focus_order: orders::focus_order(&items, &rects, n),
        paint_order: orders::paint_order(&items, &rects, n),
    }
}
