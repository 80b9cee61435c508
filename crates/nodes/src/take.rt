// Taking a pane out: the Rust's remove_pane.
// Kept: the four columns are four parameters (why: columns/src/lib.rt).
ghost use Rattle.std.specs.Prelude.{◌≡◌, false, ◌<◌, length};
ghost use Rattle.rules.specs.Tree.{view_slot, over_slot, panes_of};
ghost use Rattle.rules.specs.Insert.{active_after, removed_from, remove_pane};
ghost use Rattle.columns.specs.Columns.{nodes_from};
ghost use Rattle.columns.specs.Pack.{Even};
ghost use Rattle.nodes.specs.Parts.{location_of};
ghost use Rattle.nodes.specs.Find.{Stands};

use crate::{PaneLocation, slots};
use columns::pack;
use rules::model::{Kind, Slot};

// The active index, once the pane at index went and n are left.
fn active_after(index: usize, active: usize, n: usize) -> usize
    ensures { result ≡ active_after index active n }
{
    if n == 0 {
        return 0;
    }
    if n <= active {
        return n - 1;
    }
    if active < index {
        return active;
    }
    if active == 0 {
        return active;
    }
    active - 1
}

// A group without the pane at index.
fn removed_from(s: Slot, index: usize) -> Slot
    requires inside { index < length (panes_of (view_slot s)) }
    requires whole { over_slot s ≡ false }
    ensures { (view_slot result ≡ removed_from index (view_slot s)) × (over_slot result ≡ false) }
{
    let k = s.kind;
    let panes = s.panes;
    match k {
        Kind::Tabs(_) => {
            let left = lists::remove(panes, index);
            let mut r = s;
            r.active = active_after(index, s.active, left.len);
            r.panes = left;
            r
        }
        _ => s,
    }
}

// remove_pane, where the pane stands: a pane tile's slot is cleared, and its place in a split stays until repair.
pub fn remove_pane(
    heads: &mut [[u64; 8]; 64],
    ids: &mut [[u64; 16]; 64],
    shares: &mut [[f64; 16]; 64],
    minima: &mut [[f64; 16]; 64],
    l: Option<PaneLocation>,
)
    requires even { Even heads.old ids.old shares.old minima.old }
    requires stands { Stands (nodes_from heads.old ids.old shares.old minima.old) (location_of l) }
    ensures { (nodes_from heads.new ids.new shares.new minima.new ≡ remove_pane (location_of l) (nodes_from heads.old ids.old shares.old minima.old)) × Even heads.new ids.new shares.new minima.new }
{
    let Some(at) = l else {
        return;
    };
    match at {
        PaneLocation::Tile { tile } => {
            let none = pack::bare_slot(Kind::Empty);
            slots::set_node(heads, ids, shares, minima, tile, none);
        }
        PaneLocation::InTabs { group, index } => {
            let s = slots::get_node(heads, ids, shares, minima, group);
            let left = removed_from(s, index);
            slots::set_node(heads, ids, shares, minima, group, left);
        }
    }
}
