// Putting a tile beside another: the Rust's insert_tile_near. The columns hold the tree's slots, or those with a pane taken out; the spare slots are those
// that were empty when the call began.
// Kept: the four columns are four parameters (why: columns/src/lib.rt).
ghost use Rattle.std.specs.Prelude.{◌≡◌, false};
ghost use Rattle.rules.specs.Tree.{Arena, view_slot, over_slot};
ghost use Rattle.rules.specs.Insert.{draft, same_axis_parent};
ghost use Rattle.rules.specs.Operations.{put_near};
ghost use Rattle.columns.specs.Columns.{nodes_from};
ghost use Rattle.columns.specs.Pack.{Even};
ghost use Rattle.nodes.specs.Parts.{holder_of, beside_of};
ghost use Rattle.docking.specs.Steps.{Puts, Fits, Apart, Within, Rooted, Under};

use crate::Changed;
use nodes::{Beside, Holder, Spares, find, slots};
use parting::splits;
use rules::model::{Axis, Slot, TileId};
use rules::refusal::Refusal;

// Whether the parent is a split along the axis.
fn same_axis_parent(
    heads: &[[u64; 8]; 64],
    ids: &[[u64; 16]; 64],
    shares: &[[f64; 16]; 64],
    minima: &[[f64; 16]; 64],
    parent: Option<Holder>,
    axis: Axis,
) -> bool
    requires { Even heads.now ids.now shares.now minima.now }
    ensures { result ≡ same_axis_parent axis (holder_of parent) (nodes_from heads.now ids.now shares.now minima.now) }
{
    match parent {
        None => false,
        Some(p) => {
            let s = slots::get_node(heads, ids, shares, minima, p.split);
            splits::has_axis(s, axis)
        }
    }
}

// In a parent of the same axis: the one list that grows may pass 16, after the test of room.
fn put_in(
    root: u64,
    room: Spares,
    new: Slot,
    b: Beside,
    split: TileId,
    index: usize,
    heads: &mut [[u64; 8]; 64],
    ids: &mut [[u64; 16]; 64],
    shares: &mut [[f64; 16]; 64],
    minima: &mut [[f64; 16]; 64],
) -> Result<Changed, Refusal>
    requires even { Even heads.old ids.old shares.old minima.old }
    requires whole { over_slot new ≡ false }
    requires from { (a : Arena) × Within root room (nodes_from heads.old ids.old shares.old minima.old) (view_slot new) b split index a }
    ensures { Puts (Within root room (nodes_from heads.old ids.old shares.old minima.old) (view_slot new) b split index) (λ (a : Arena). put_near a (view_slot new) (beside_of b) (draft a.root (nodes_from heads.old ids.old shares.old minima.old))) result heads.new ids.new shares.new minima.new }
{
    let inserted = room.first.ok_or(Refusal::ArenaFull)?;
    slots::set_node(heads, ids, shares, minima, inserted, new);
    let s = slots::get_node(heads, ids, shares, minima, split);
    let children = s.children;
    if 16 <= children.len {
        return Err(Refusal::TooWide);
    }
    let grown = splits::inserted_in(s, b, inserted, index);
    slots::set_node(heads, ids, shares, minima, split, grown);
    Ok(Changed {
        root,
        spare: room.second,
    })
}

// At the root: a new split of the two becomes the root.
fn put_over(
    room: Spares,
    new: Slot,
    b: Beside,
    heads: &mut [[u64; 8]; 64],
    ids: &mut [[u64; 16]; 64],
    shares: &mut [[f64; 16]; 64],
    minima: &mut [[f64; 16]; 64],
) -> Result<Changed, Refusal>
    requires even { Even heads.old ids.old shares.old minima.old }
    requires whole { over_slot new ≡ false }
    ensures { Puts (Rooted room (nodes_from heads.old ids.old shares.old minima.old) (view_slot new) b) (λ (a : Arena). put_near a (view_slot new) (beside_of b) (draft a.root (nodes_from heads.old ids.old shares.old minima.old))) result heads.new ids.new shares.new minima.new }
{
    let inserted = room.first.ok_or(Refusal::ArenaFull)?;
    let top = room.second.ok_or(Refusal::ArenaFull)?;
    slots::set_node(heads, ids, shares, minima, inserted, new);
    let both = splits::new_split(b, inserted);
    slots::set_node(heads, ids, shares, minima, top, both);
    Ok(Changed {
        root: top.slot,
        spare: room.third,
    })
}

// In a parent of the other axis: a new split of the two takes the target's place, which keeps its share and minimum.
fn put_under(
    root: u64,
    room: Spares,
    new: Slot,
    b: Beside,
    split: TileId,
    index: usize,
    heads: &mut [[u64; 8]; 64],
    ids: &mut [[u64; 16]; 64],
    shares: &mut [[f64; 16]; 64],
    minima: &mut [[f64; 16]; 64],
) -> Result<Changed, Refusal>
    requires even { Even heads.old ids.old shares.old minima.old }
    requires whole { over_slot new ≡ false }
    requires from { (a : Arena) × Under root room (nodes_from heads.old ids.old shares.old minima.old) (view_slot new) b split index a }
    ensures { Puts (Under root room (nodes_from heads.old ids.old shares.old minima.old) (view_slot new) b split index) (λ (a : Arena). put_near a (view_slot new) (beside_of b) (draft a.root (nodes_from heads.old ids.old shares.old minima.old))) result heads.new ids.new shares.new minima.new }
{
    let inserted = room.first.ok_or(Refusal::ArenaFull)?;
    let held = room.second.ok_or(Refusal::ArenaFull)?;
    slots::set_node(heads, ids, shares, minima, inserted, new);
    let both = splits::new_split(b, inserted);
    slots::set_node(heads, ids, shares, minima, held, both);
    let s = slots::get_node(heads, ids, shares, minima, split);
    let swapped = splits::replaced_in(s, held, index);
    slots::set_node(heads, ids, shares, minima, split, swapped);
    Ok(Changed {
        root,
        spare: room.third,
    })
}

// A new split of the two, at the root or under the parent.
fn put_apart(
    root: u64,
    room: Spares,
    new: Slot,
    b: Beside,
    parent: Option<Holder>,
    heads: &mut [[u64; 8]; 64],
    ids: &mut [[u64; 16]; 64],
    shares: &mut [[f64; 16]; 64],
    minima: &mut [[f64; 16]; 64],
) -> Result<Changed, Refusal>
    requires even { Even heads.old ids.old shares.old minima.old }
    requires whole { over_slot new ≡ false }
    requires from { (a : Arena) × Apart root room (nodes_from heads.old ids.old shares.old minima.old) (view_slot new) b (holder_of parent) a }
    ensures { Puts (Apart root room (nodes_from heads.old ids.old shares.old minima.old) (view_slot new) b (holder_of parent)) (λ (a : Arena). put_near a (view_slot new) (beside_of b) (draft a.root (nodes_from heads.old ids.old shares.old minima.old))) result heads.new ids.new shares.new minima.new }
{
    let target = b.target;
    if target.slot == root {
        return put_over(room, new, b, heads, ids, shares, minima);
    }
    let p = parent.ok_or(Refusal::InvalidOperation)?;
    put_under(
        root, room, new, b, p.split, p.index, heads, ids, shares, minima,
    )
}

// insert_tile_near, of a tile that takes the lowest spare slot.
pub fn put_near(
    root: u64,
    room: Spares,
    new: Slot,
    b: Beside,
    heads: &mut [[u64; 8]; 64],
    ids: &mut [[u64; 16]; 64],
    shares: &mut [[f64; 16]; 64],
    minima: &mut [[f64; 16]; 64],
) -> Result<Changed, Refusal>
    requires even { Even heads.old ids.old shares.old minima.old }
    requires whole { over_slot new ≡ false }
    requires from { (a : Arena) × Fits root room (nodes_from heads.old ids.old shares.old minima.old) (view_slot new) a }
    ensures { Puts (Fits root room (nodes_from heads.old ids.old shares.old minima.old) (view_slot new)) (λ (a : Arena). put_near a (view_slot new) (beside_of b) (draft a.root (nodes_from heads.old ids.old shares.old minima.old))) result heads.new ids.new shares.new minima.new }
{
    let target = b.target;
    let at = slots::get_node(heads, ids, shares, minima, target);
    if columns::slots::is_empty(at) {
        return Err(Refusal::InvalidTileId);
    }
    let parent = find::find_parent(heads, ids, target);
    let axis = b.axis;
    if !same_axis_parent(heads, ids, shares, minima, parent, axis) {
        return put_apart(root, room, new, b, parent, heads, ids, shares, minima);
    }
    let p = parent.ok_or(Refusal::InvalidOperation)?;
    put_in(
        root, room, new, b, p.split, p.index, heads, ids, shares, minima,
    )
}
