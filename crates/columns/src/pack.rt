// From columns to slots.
// Kept: the four columns are four parameters (why: columns/src/lib.rt).
ghost use Rattle.std.specs.Prelude.{◌≡◌, [], map, ltb, length, get_or, take, ◌<◌};
ghost use Rattle.rules.specs.Lists.{any_of};
ghost use Rattle.rules.specs.Tree.{Node, empty, tile, view_slot, over_slot};
ghost use Rattle.columns.specs.Columns.{bar_from, axis_from, node_from, nodes_from};
ghost use Rattle.columns.specs.Pack.{over_head, over_of};

use crate::modes;
use rules::model::{Ids, Kind, Reals, Slot, TileId, Tiles};

// The tiles whose slot numbers these are.
fn tiles_of(row: [u64; 16]) -> [TileId; 16]
    ensures { result ≡ map tile row }
{
    let mut at = [TileId { slot: 0 }; 16];
    for i in 0..16 {
        at[i] = TileId { slot: row[i] };
    }
    at
}

// An empty slot or a pane: no list is in use.
pub fn bare_slot(kind: Kind) -> Slot
    ensures { result.kind ≡ kind }
{
    let panes = Ids {
        at: [0; 16],
        len: 0,
    };
    let children = Tiles {
        at: [TileId { slot: 0 }; 16],
        len: 0,
    };
    let reals = Reals {
        at: [0.0; 16],
        len: 0,
    };
    Slot {
        kind,
        active: 0,
        panes,
        children,
        shares: reals,
        minima: reals,
    }
}

fn group_slot(h: [u64; 8], row: [u64; 16]) -> Slot
    ensures { (view_slot result ≡ Node.tabs (bar_from (get_or h 1 0)) (get_or h 3 0) (take (get_or h 4 0) row)) × (over_slot result ≡ ltb 16 (get_or h 4 0)) }
{
    let bar = modes::bar_of(h[1]);
    let mut s = bare_slot(Kind::Tabs(bar));
    s.active = h[3] as usize;
    s.panes = Ids {
        at: row,
        len: h[4] as usize,
    };
    s
}

fn split_slot(h: [u64; 8], row: [u64; 16], shares: [f64; 16], minima: [f64; 16]) -> Slot
    ensures { (view_slot result ≡ Node.split (axis_from (get_or h 1 0)) (map tile (take (get_or h 4 0) row)) (take (get_or h 5 0) shares) (take (get_or h 6 0) minima)) × (over_slot result ≡ over_head h) }
{
    let axis = modes::axis_of(h[1]);
    let mut s = bare_slot(Kind::Split(axis));
    let at = tiles_of(row);
    s.children = Tiles {
        at,
        len: h[4] as usize,
    };
    s.shares = Reals {
        at: shares,
        len: h[5] as usize,
    };
    s.minima = Reals {
        at: minima,
        len: h[6] as usize,
    };
    s
}

// The slot that a row of the columns shows.
fn slot_of(h: [u64; 8], row: [u64; 16], shares: [f64; 16], minima: [f64; 16]) -> Slot
    ensures { (view_slot result ≡ node_from h row shares minima) × (over_slot result ≡ over_of h) }
{
    match h[0] {
        0 => bare_slot(Kind::Empty),
        1 => bare_slot(Kind::Pane(h[2])),
        2 => group_slot(h, row),
        _ => split_slot(h, row, shares, minima),
    }
}

// The slot that one row shows.
pub fn get(
    heads: &[[u64; 8]; 64],
    ids: &[[u64; 16]; 64],
    shares: &[[f64; 16]; 64],
    minima: &[[f64; 16]; 64],
    i: usize,
) -> Slot
    requires { i < 64 }
    ensures { (view_slot result ≡ get_or (nodes_from heads.now ids.now shares.now minima.now) i empty) × (over_slot result ≡ over_of (get_or heads.now i [])) }
{
    slot_of(heads[i], ids[i], shares[i], minima[i])
}

// A length of over 16 is handed on as it is: the slot then has a list that is not all there.
pub fn pack(
    heads: &[[u64; 8]; 64],
    ids: &[[u64; 16]; 64],
    shares: &[[f64; 16]; 64],
    minima: &[[f64; 16]; 64],
) -> [Slot; 64]
    ensures { (map view_slot result ≡ nodes_from heads.now ids.now shares.now minima.now) × (any_of over_slot result ≡ any_of over_of heads.now) }
{
    let mut slots = [bare_slot(Kind::Empty); 64];
    for i in 0..64 {
        slots[i] = get(heads, ids, shares, minima, i);
    }
    slots
}
