// Groups read and changed: the parts of activate_pane, insert_tile_at_target and reorder_tab that work on one group.
ghost use Rattle.std.specs.Prelude.{◌≡◌, false, ◌≤◌, ◌<◌, min, length};
ghost use Rattle.std.proofs.Math.ListN.{get_elem?};
ghost use Rattle.rules.specs.Tree as Tree;
ghost use Rattle.rules.specs.Tree.{view_slot, over_slot, panes_of};
ghost use Rattle.rules.specs.Operations as Rule;
ghost use Rattle.nodes.specs.Parts.{is_full, IsGroup, reordered_in};

use rules::model::{Ids, Kind, Slot};
use sifting::panes;

// Whether the place is the active one.
pub fn active_is(s: Slot, index: usize) -> bool
    ensures { result ≡ Rule.active_is index (view_slot s) }
{
    let k = s.kind;
    match k {
        Kind::Tabs(_) => s.active == index,
        _ => false,
    }
}

// A group with another pane active. No other kind shows it.
pub fn set_active(s: Slot, index: usize) -> Slot
    requires { over_slot s ≡ false }
    ensures { (view_slot result ≡ Rule.set_active index (view_slot s)) × (over_slot result ≡ false) }
{
    let mut r = s;
    r.active = index;
    r
}

// Whether a group has no place left.
pub fn is_full(s: Slot) -> bool
    ensures { result ≡ is_full s }
{
    let k = s.kind;
    let panes = s.panes;
    match k {
        Kind::Tabs(_) => 16 <= panes.len,
        _ => false,
    }
}

// The Rust's `a.min(b)`, of places.
fn lesser(a: usize, b: usize) -> usize
    ensures { result ≡ min a b }
{
    if a <= b { a } else { b }
}

// The place where a pane goes into a group of n: the end, or an index within it.
fn clamped(index: Option<usize>, n: usize) -> usize
    ensures { (result ≡ Rule.clamped index n) × (result ≤ n) }
{
    match index {
        None => n,
        Some(i) => lesser(i, n),
    }
}

// A group with the pane put in, and active.
pub fn tabbed_in(s: Slot, pane: u64, index: Option<usize>) -> Slot
    requires whole { over_slot s ≡ false }
    requires roomy { is_full s ≡ false }
    ensures { (view_slot result ≡ Rule.tabbed_in pane index (view_slot s)) × (over_slot result ≡ false) }
{
    let k = s.kind;
    let given = s.panes;
    match k {
        Kind::Tabs(_) => {
            let place = clamped(index, given.len);
            let more = lists::insert(given, place, pane);
            let mut r = s;
            r.active = place;
            r.panes = more;
            r
        }
        _ => s,
    }
}

// Where the pane at a place lands: an index within what is left without it.
pub fn landing(s: Slot, from: usize, index: usize) -> usize
    requires whole { over_slot s ≡ false }
    requires group { IsGroup (view_slot s) }
    requires inside { from < length (panes_of (view_slot s)) }
    ensures { (result ≡ Rule.landing from index (panes_of (view_slot s))) × (result < length (panes_of (view_slot s))) }
{
    let given = s.panes;
    let left = lists::remove(given, from);
    lesser(index, left.len)
}

// The active pane's place once the panes stand in another order.
fn kept_active(given: Ids, active: usize, moved: Ids) -> usize
    requires few { given.len ≤ 16 }
    requires few_moved { moved.len ≤ 16 }
    ensures { result ≡ Rule.kept_active (get_elem? (Tree.ids given) active) active (Tree.ids moved) }
{
    if given.len <= active {
        return active;
    }
    panes::active_of(given, active, moved)
}

// A group with the pane moved from one place to another.
pub fn reordered(s: Slot, pane: u64, from: usize, to: usize) -> Slot
    requires whole { over_slot s ≡ false }
    requires group { IsGroup (view_slot s) }
    requires inside { from < length (panes_of (view_slot s)) }
    requires lands { to < length (panes_of (view_slot s)) }
    ensures { (view_slot result ≡ reordered_in pane from to (view_slot s)) × (over_slot result ≡ false) }
{
    let given = s.panes;
    let left = lists::remove(given, from);
    let moved = lists::insert(left, to, pane);
    let active = kept_active(given, s.active, moved);
    let mut r = s;
    r.active = active;
    r.panes = moved;
    r
}
