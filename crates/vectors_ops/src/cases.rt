// What the cases made by hand share: trees, operations, and how an answer is compared.
ghost use Rattle.std.specs.Prelude.{◌≡◌, true, [], ◌∷◌, ◌+◌, ◌≤◌};
ghost use Rattle.rules.specs.Tree.{tile, view};
ghost use Rattle.rules.specs.Operations.{apply};
ghost use Rattle.rules.specs.Refusals.{answer_of};
ghost use Rattle.rules.specs.declared.operation.TileOp.TheVariants as Ops;
ghost use Rattle.rules.specs.declared.operation.DockTarget.TheVariants as Targets;
ghost use Rattle.lists.specs.Exact.{IsTiles};

use answers::Told;
use columns::pack;
use nodes::slots;
use rules::model::{Axis, Kind, Placement, Reals, Slot, TileId, TileTree, Tiles};
use rules::operation::{DockTarget, TileOp};

// ---- trees

pub fn blank(revision: u64) -> TileTree
    ensures { (result.root.slot ≡ 0) × (result.revision ≡ revision) }
{
    TileTree {
        root: TileId { slot: 0 },
        revision,
        slots: [pack::bare_slot(Kind::Empty); 64],
    }
}

// The tree with a slot filled.
pub fn with(t: TileTree, at: u64, s: Slot) -> TileTree
    ensures { (result.root ≡ t.root) × (result.revision ≡ t.revision) }
{
    if 64 <= at {
        return t;
    }
    let i = at as usize;
    let mut r = t;
    r.slots[i] = s;
    r
}

pub fn with_pane(t: TileTree, at: u64, pane: u64) -> TileTree
    ensures { (result.root ≡ t.root) × (result.revision ≡ t.revision) }
{
    with(t, at, slots::pane_slot(pane))
}

pub fn with_none(t: TileTree, at: u64) -> TileTree
    ensures { (result.root ≡ t.root) × (result.revision ≡ t.revision) }
{
    with(t, at, pack::bare_slot(Kind::Empty))
}

pub fn with_split(t: TileTree, at: u64, axis: Axis, children: Tiles, shares: Reals) -> TileTree
    ensures { (result.root ≡ t.root) × (result.revision ≡ t.revision) }
{
    let mut s = pack::bare_slot(Kind::Split(axis));
    s.children = children;
    s.shares = shares;
    with(t, at, s)
}

pub fn with_root(t: TileTree, root: u64) -> TileTree
    ensures { (result.root.slot ≡ root) × (result.revision ≡ t.revision) × (result.slots ≡ t.slots) }
{
    TileTree {
        root: TileId { slot: root },
        ..t
    }
}

// The tree at another revision.
pub fn at_revision(t: TileTree, revision: u64) -> TileTree
    ensures { (result.root ≡ t.root) × (result.revision ≡ revision) × (result.slots ≡ t.slots) }
{
    TileTree { revision, ..t }
}

pub fn pair(a: u64, b: u64) -> Tiles
    ensures { IsTiles result (tile a ∷ tile b ∷ []) }
{
    lists::two(TileId { slot: a }, TileId { slot: b })
}

pub fn triple(a: u64, b: u64, c: u64) -> Tiles
    ensures { result.len ≡ 3 }
{
    let two = lists::two(TileId { slot: a }, TileId { slot: b });
    lists::push(two, TileId { slot: c })
}

pub fn shares(a: f64, b: f64, c: f64) -> Reals
    ensures { result.len ≡ 3 }
{
    let two = lists::two(a, b);
    lists::push(two, c)
}

// Panes 1, 2, .. side by side, each in the slot of its number, in a split in slot 0.
pub fn row(n: usize) -> TileTree
    requires { n ≤ 16 }
    ensures { (result.root.slot ≡ 0) × (result.revision ≡ 7) }
{
    let mut at = [TileId { slot: 0 }; 16];
    let mut t = blank(7);
    for i in 0..n {
        let k = i as u64 + 1;
        at[i] = TileId { slot: k };
        t = with_pane(t, k, k);
    }
    let children = Tiles { at, len: n };
    let ones = lists::repeat(n, 1.0);
    with_split(t, 0, Axis::Horizontal, children, ones)
}

// ---- answers

// Whether the answer has this number, and this tree comes back.
fn comes_to(t: TileTree, op: TileOp, number: u64, wanted: TileTree) -> bool
    ensures { result ≡ true → (answer_of (apply (view t) op).answer).number ≡ number }
{
    let done = ops::whole::apply(t, op);
    let told = Told::from(done.answer);
    if told.number != number {
        return false;
    }
    compare::same::same_tree(done.tree, wanted)
}

// Accepted, and this tree comes back.
pub fn gives(t: TileTree, op: TileOp, wanted: TileTree) -> bool
    ensures { result ≡ true → (answer_of (apply (view t) op).answer).number ≡ 0 }
{
    comes_to(t, op, 0, wanted)
}

// Refused with this number, or accepted with 0; the tree comes back as it was given.
pub fn keeps(t: TileTree, op: TileOp, number: u64) -> bool
    ensures { result ≡ true → (answer_of (apply (view t) op).answer).number ≡ number }
{
    comes_to(t, op, number, t)
}

// ---- operations

pub fn split_pane(axis: Axis, placement: Placement, share: f64) -> TileOp
    ensures { result ≡ Ops.SplitPane 1 axis 3 placement share }
{
    TileOp::SplitPane {
        pane: 1,
        axis,
        new_pane: 3,
        placement,
        share,
    }
}

pub fn to_root(pane: u64) -> TileOp
    ensures { result ≡ Ops.MovePane pane Targets.Root }
{
    TileOp::MovePane {
        pane,
        target: DockTarget::Root,
    }
}
