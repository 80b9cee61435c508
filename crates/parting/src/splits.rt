// Splits made and changed: the parts of the Rust's insert_tile_near that work on one split.
ghost use Rattle.std.specs.Prelude.{◌≡◌, false, [], ◌∷◌, ◌≤◌, ◌<◌};
ghost use Rattle.rules.specs.Numbers.{hundredth};
ghost use Rattle.rules.specs.Numbers as Numbers;
ghost use Rattle.rules.specs.Tree as Tree;
ghost use Rattle.rules.specs.Tree.{view_slot, over_slot};
ghost use Rattle.rules.specs.Insert.{insert_index, inserted_share, target_share, divided_shares, inserted_in, has_axis, new_split, replaced_in};
ghost use Rattle.lists.specs.Exact.{IsReals};
ghost use Rattle.nodes.specs.Parts.{beside_of};

use columns::pack;
use nodes::Beside;
use rules::model::{Axis, Kind, Placement, Reals, Slot, TileId};
use util::{minima, shares};

// Whether a slot is a split along the axis.
pub fn has_axis(s: Slot, axis: Axis) -> bool
    ensures { result ≡ has_axis axis (view_slot s) }
{
    let k = s.kind;
    match k {
        Kind::Split(own) => own == axis,
        _ => false,
    }
}

// insert_index
fn insert_index(placement: Placement, index: usize) -> usize
    requires { index < 16 }
    ensures { result ≡ insert_index placement index }
{
    match placement {
        Placement::Before => index,
        Placement::After => index + 1,
    }
}

// The Rust's x.max(0.01): no share is made smaller.
fn at_least(x: f64) -> f64
    ensures { result ≡ Numbers.larger x hundredth }
{
    number::larger(x, 0.01)
}

// inserted_share
fn inserted_share(old: f64, share: f64) -> f64
    ensures { result ≡ inserted_share old share }
{
    at_least(old * share)
}

// target_share
fn target_share(old: f64, share: f64) -> f64
    ensures { result ≡ target_share old share }
{
    let inserted = inserted_share(old, share);
    at_least(old - inserted)
}

// A split's shares, the one at index divided between the target and the inserted.
fn divided_shares(shares: Reals, b: Beside, index: usize) -> Reals
    requires inside { index < shares.len }
    requires roomy { shares.len < 16 }
    ensures { IsReals result (divided_shares (beside_of b) index (Tree.reals shares)) }
{
    let old = lists::get(shares, index, 1.0);
    let inserted = inserted_share(old, b.share);
    let kept = target_share(old, b.share);
    let set = lists::replace(shares, index, kept);
    let placement = b.placement;
    let place = insert_index(placement, index);
    lists::insert(set, place, inserted)
}

// A split with the tile inserted at the target's side, with minimum 0.
pub fn inserted_in(s: Slot, b: Beside, inserted: TileId, index: usize) -> Slot
    requires inside { index < s.children.len }
    requires roomy { s.children.len < 16 }
    requires few { s.shares.len ≤ 16 }
    requires whole { over_slot s ≡ false }
    ensures { (view_slot result ≡ inserted_in (beside_of b) inserted index (view_slot s)) × (over_slot result ≡ false) }
{
    let children = s.children;
    let n = children.len;
    let given = s.shares;
    let least = s.minima;
    let placement = b.placement;
    let place = insert_index(placement, index);
    let kids = lists::insert(children, place, inserted);
    let old = shares::repaired_shares(n, given);
    let parts = divided_shares(old, b, index);
    let aligned = minima::aligned_constraints(n, least);
    let more = lists::insert(aligned, place, 0.0);
    let mins = minima::compact_constraints(more);
    let mut r = s;
    r.children = kids;
    r.shares = parts;
    r.minima = mins;
    r
}

// The split of the target and the inserted, with no stored minima.
pub fn new_split(b: Beside, inserted: TileId) -> Slot
    ensures { (view_slot result ≡ new_split (beside_of b) inserted b.placement) × (over_slot result ≡ false) }
{
    let target = b.target;
    let axis = b.axis;
    let own = at_least(b.share);
    let rest = at_least(1.0 - b.share);
    let placement = b.placement;
    match placement {
        Placement::Before => split_of(axis, inserted, target, own, rest),
        Placement::After => split_of(axis, target, inserted, rest, own),
    }
}

// A split of two.
fn split_of(axis: Axis, first: TileId, second: TileId, a: f64, b: f64) -> Slot
    ensures { (view_slot result ≡ Tree.split axis (first ∷ second ∷ []) (a ∷ b ∷ []) []) × (over_slot result ≡ false) }
{
    let mut s = pack::bare_slot(Kind::Split(axis));
    let children = lists::two(first, second);
    let parts = lists::two(a, b);
    let none = lists::empty();
    s.children = children;
    s.shares = parts;
    s.minima = none;
    s
}

// A split with another tile in the target's place.
pub fn replaced_in(s: Slot, other: TileId, index: usize) -> Slot
    requires inside { index < s.children.len }
    requires few { s.children.len ≤ 16 }
    requires whole { over_slot s ≡ false }
    ensures { (view_slot result ≡ replaced_in other index (view_slot s)) × (over_slot result ≡ false) }
{
    let children = s.children;
    let kids = lists::replace(children, index, other);
    let mut r = s;
    r.children = kids;
    r
}
