// A pane moved within its group: the Rust's reorder_tab.
// Kept: the four columns are four parameters (why: columns/src/lib.rt).
ghost use Rattle.std.specs.Prelude.{◌≡◌, false, ◌<◌, length};
ghost use Rattle.std.proofs.Math.Option.{some};
ghost use Rattle.rules.specs.Tree.{Arena, view_slot, over_slot, panes_of};
ghost use Rattle.rules.specs.Operations as Rule;
ghost use Rattle.columns.specs.Pack.{Even};
ghost use Rattle.nodes.specs.Parts.{IsGroup};
ghost use Rattle.docking.specs.Steps.{Does, reorder_as};

use docking::Changed;
use nodes::slots;
use rules::model::{Kind, Slot, TileId};
use rules::refusal::Refusal;
use tabbing::groups;

// reorder_tab, where the pane stands in the group: the index is clamped after the removal, and the active pane stays the same pane.
fn reorder_from(
    root: u64,
    group: TileId,
    s: Slot,
    pane: u64,
    from: usize,
    index: usize,
    heads: &mut [[u64; 8]; 64],
    ids: &mut [[u64; 16]; 64],
    shares: &mut [[f64; 16]; 64],
    minima: &mut [[f64; 16]; 64],
) -> Result<Option<Changed>, Refusal>
    requires even { Even heads.old ids.old shares.old minima.old }
    requires whole { over_slot s ≡ false }
    requires group { IsGroup (view_slot s) }
    requires inside { from < length (panes_of (view_slot s)) }
    ensures { Does root (λ (a : Arena). reorder_as (some from) (view_slot s) a group pane index) result heads.old ids.old shares.old minima.old heads.new ids.new shares.new minima.new }
{
    let to = groups::landing(s, from, index);
    if from == to {
        return Ok(None);
    }
    let spare = slots::next_empty(heads, 0);
    let next = groups::reordered(s, pane, from, to);
    slots::set_node(heads, ids, shares, minima, group, next);
    Ok(Some(Changed { root, spare }))
}

// reorder_tab, in a group.
fn reorder_in(
    root: u64,
    group: TileId,
    s: Slot,
    pane: u64,
    index: usize,
    heads: &mut [[u64; 8]; 64],
    ids: &mut [[u64; 16]; 64],
    shares: &mut [[f64; 16]; 64],
    minima: &mut [[f64; 16]; 64],
) -> Result<Option<Changed>, Refusal>
    requires even { Even heads.old ids.old shares.old minima.old }
    requires whole { over_slot s ≡ false }
    requires group { IsGroup (view_slot s) }
    ensures { Does root (λ (a : Arena). Rule.reorder_in (view_slot s) a group pane index) result heads.old ids.old shares.old minima.old heads.new ids.new shares.new minima.new }
{
    let panes = s.panes;
    let place = lists::position(panes, pane);
    match place {
        Some(from) => reorder_from(
            root, group, s, pane, from, index, heads, ids, shares, minima,
        ),
        None => Err(Refusal::InvalidPaneId),
    }
}

// reorder_tab
pub fn reorder_tab(
    root: u64,
    group: TileId,
    pane: u64,
    index: usize,
    heads: &mut [[u64; 8]; 64],
    ids: &mut [[u64; 16]; 64],
    shares: &mut [[f64; 16]; 64],
    minima: &mut [[f64; 16]; 64],
) -> Result<Option<Changed>, Refusal>
    requires { Even heads.old ids.old shares.old minima.old }
    ensures { Does root (λ (a : Arena). Rule.reorder_tab a group pane index) result heads.old ids.old shares.old minima.old heads.new ids.new shares.new minima.new }
{
    let s = slots::get_node(heads, ids, shares, minima, group);
    let k = s.kind;
    match k {
        Kind::Empty => Err(Refusal::InvalidTileId),
        Kind::Pane(_) => Err(Refusal::InvalidTileId),
        Kind::Tabs(_) => reorder_in(root, group, s, pane, index, heads, ids, shares, minima),
        Kind::Split(_) => Err(Refusal::InvalidTileId),
    }
}
