// An operation as docs/VECTORS.md writes it. A kind that is none of the table's reads as the last.
ghost use Rattle.std.specs.Prelude.{◌≤◌, length};

use rules::model::Placement;
use rules::operation::{DockTarget, TileOp};
use wire::{Reader, tree};

fn placement(n: u64) -> Placement {
    match n {
        0 => Placement::Before,
        _ => Placement::After,
    }
}

fn index(given: u64, n: u64) -> Option<usize> {
    match given {
        0 => None,
        _ => Some(n as usize),
    }
}

// The root; beside a tile, with the axis, the placement and the ratio; or into a group, with whether an index is given, and the index.
fn target(body: &mut Reader) -> DockTarget
    ensures { length body.new.rest.now ≤ length body.old.rest.now }
{
    match body.number() {
        0 => DockTarget::Root,
        1 => DockTarget::Split {
            tile: body.tile(),
            axis: tree::axis(body.number()),
            placement: placement(body.number()),
            ratio: body.real(),
        },
        _ => DockTarget::TabInto {
            group: body.tile(),
            index: index(body.number(), body.number()),
        },
    }
}

pub fn operation(body: &mut Reader) -> TileOp
    ensures { length body.new.rest.now ≤ length body.old.rest.now }
{
    match body.number() {
        0 => TileOp::ActivatePane {
            pane: body.number(),
        },
        1 => TileOp::ClosePane {
            pane: body.number(),
        },
        2 => TileOp::SplitPane {
            pane: body.number(),
            axis: tree::axis(body.number()),
            new_pane: body.number(),
            placement: placement(body.number()),
            share: body.real(),
        },
        3 => TileOp::MovePane {
            pane: body.number(),
            target: target(body),
        },
        _ => TileOp::ReorderTab {
            group: body.tile(),
            pane: body.number(),
            index: body.number() as usize,
        },
    }
}
