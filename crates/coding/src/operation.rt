// An operation and a layout's input from their numbers.
ghost use Rattle.std.specs.Prelude.{◌≡◌, get_or};
ghost use Rattle.coding.specs.Lent.{placement_from, index_from, target_by, op_from, input_from};

use columns::modes;
use rules::frame::{LayoutInput, Rect, Size};
use rules::model::{Placement, TileId};
use rules::operation::{DockTarget, TileOp};

// Kept: a `From<u64>` of `Placement` stands in `rules` or nowhere, and this reading by `placement_from` is that of the calls for C.
fn placement_of(n: u64) -> Placement
    ensures { result ≡ placement_from n }
{
    match n {
        0 => Placement::Before,
        _ => Placement::After,
    }
}

// Kept: a flag and a number, as the words of an operation have them for C; an Option is what comes out.
fn index_of(given: u64, index: u64) -> Option<usize>
    ensures { result ≡ index_from given index }
{
    match given {
        0 => None,
        _ => Some(index as usize),
    }
}

fn target_of(w: [u64; 8], fraction: f64) -> DockTarget
    ensures { result ≡ target_by (get_or w 5 0) w fraction }
{
    let tile = TileId { slot: w[4] };
    match w[5] {
        0 => DockTarget::Root,
        1 => DockTarget::Split {
            tile,
            axis: modes::axis_of(w[2]),
            placement: placement_of(w[3]),
            ratio: fraction,
        },
        _ => DockTarget::TabInto {
            group: tile,
            index: index_of(w[6], w[7]),
        },
    }
}

// Kept: an Option would do for `op_ok` and this together, but this one could not fail, and still can't.
pub fn op_of(words: &[u64; 8], fraction: f64) -> TileOp
    ensures { result ≡ op_from words.now fraction }
{
    let w = *words;
    let pane = w[1];
    match w[0] {
        0 => TileOp::ActivatePane { pane },
        1 => TileOp::ClosePane { pane },
        2 => {
            let axis = modes::axis_of(w[2]);
            TileOp::SplitPane {
                pane,
                axis,
                new_pane: w[4],
                placement: placement_of(w[3]),
                share: fraction,
            }
        }
        3 => TileOp::MovePane {
            pane,
            target: target_of(w, fraction),
        },
        _ => TileOp::ReorderTab {
            group: TileId { slot: w[4] },
            pane,
            index: w[7] as usize,
        },
    }
}

// x0, y0, x1, y1, tab bar, split handle, minimum width, minimum height.
pub fn input_of(numbers: &[f64; 8]) -> LayoutInput
    ensures { result ≡ input_from numbers.now }
{
    let [x0, y0, x1, y1, tab_bar, split_handle, width, height] = *numbers;
    LayoutInput {
        bounds: Rect { x0, y0, x1, y1 },
        tab_bar_thickness: tab_bar,
        split_handle_thickness: split_handle,
        min_pane_size: Size { width, height },
    }
}
