// Slots read, written, taken and made: the Rust's get_node, set_node and push_node.
// Kept: the four columns are four parameters (why: columns/src/lib.rt).
ghost use Rattle.std.specs.Prelude.{◌≡◌, false, List, [], ◌∷◌, ℕ, suc, ◌<◌, Float, length, drop, IfSome};
ghost use Rattle.rules.specs.Tree.{Node, view_slot, over_slot, node_at, set_node, empty_from, empty_slots};
ghost use Rattle.rules.specs.declared.model.TabBarPlacement.TheVariants as Bars;
ghost use Rattle.columns.specs.Columns.{nodes_from};
ghost use Rattle.columns.specs.Pack.{Even};
ghost use Rattle.nodes.specs.Parts.{first_slot, Spared};

use crate::Spares;
use columns::{pack, unpack};
use rules::model::{Kind, Slot, TabBarPlacement, TileId};

// get_node, and the one place that resolves a tile id: one past the slots reads as empty.
pub fn get_node(
    heads: &[[u64; 8]; 64],
    ids: &[[u64; 16]; 64],
    shares: &[[f64; 16]; 64],
    minima: &[[f64; 16]; 64],
    id: TileId,
) -> Slot
    requires { Even heads.now ids.now shares.now minima.now }
    ensures { (view_slot result ≡ node_at (nodes_from heads.now ids.now shares.now minima.now) id) × (over_slot result ≡ false) }
{
    let i = id.slot;
    if 64 <= i {
        return pack::bare_slot(Kind::Empty);
    }
    pack::get(heads, ids, shares, minima, i as usize)
}

// set_node
pub fn set_node(
    heads: &mut [[u64; 8]; 64],
    ids: &mut [[u64; 16]; 64],
    shares: &mut [[f64; 16]; 64],
    minima: &mut [[f64; 16]; 64],
    id: TileId,
    s: Slot,
)
    requires even { Even heads.old ids.old shares.old minima.old }
    requires whole { over_slot s ≡ false }
    ensures { (nodes_from heads.new ids.new shares.new minima.new ≡ set_node id (view_slot s) (nodes_from heads.old ids.old shares.old minima.old)) × Even heads.new ids.new shares.new minima.new }
{
    let i = id.slot;
    if 64 <= i {
        return;
    }
    unpack::put(heads, ids, shares, minima, i as usize, s);
}

// The lowest empty slot from one on.
pub fn next_empty(heads: &[[u64; 8]; 64], from: usize) -> Option<TileId>
    ensures inside { IfSome result (λ t. t.slot < 64) }
    ensures right { (xs : List (List ℕ)) (ss ms : List (List Float)) → length xs ≡ 64 → length ss ≡ 64 → length ms ≡ 64 → result ≡ first_slot (empty_from from (drop from (nodes_from heads.now xs ss ms))) }
{
    for i in from..64 {
        let h = heads[i];
        if h[0] == 0 {
            return Some(TileId { slot: i as u64 });
        }
    }
    None
}

// The empty slot after one of them.
fn next_after(heads: &[[u64; 8]; 64], last: Option<TileId>) -> Option<TileId>
    requires { IfSome last (λ t. t.slot < 64) }
    ensures inside { IfSome result (λ t. t.slot < 64) }
    ensures right { (xs : List (List ℕ)) (ss ms : List (List Float)) → length xs ≡ 64 → length ss ≡ 64 → length ms ≡ 64 → (k : ℕ) → last ≡ first_slot (drop k (empty_slots (nodes_from heads.now xs ss ms))) → result ≡ first_slot (drop (suc k) (empty_slots (nodes_from heads.now xs ss ms))) }
{
    let t = last?;
    next_empty(heads, t.slot as usize + 1)
}

// The slots that new tiles take, in order of making.
pub fn spares(heads: &[[u64; 8]; 64]) -> Spares
    ensures { (xs : List (List ℕ)) (ss ms : List (List Float)) → length xs ≡ 64 → length ss ≡ 64 → length ms ≡ 64 → Spared result (nodes_from heads.now xs ss ms) }
{
    let first = next_empty(heads, 0);
    let second = next_after(heads, first);
    let third = next_after(heads, second);
    Spares {
        first,
        second,
        third,
    }
}

// TileNode::pane
pub fn pane_slot(pane: u64) -> Slot
    ensures { (view_slot result ≡ Node.pane pane) × (over_slot result ≡ false) }
{
    pack::bare_slot(Kind::Pane(pane))
}

// TileNode::tabs(vec![pane]): a Top group with the one pane.
pub fn top_group(pane: u64) -> Slot
    ensures { (view_slot result ≡ Node.tabs Bars.Top 0 (pane ∷ [])) × (over_slot result ≡ false) }
{
    let mut s = pack::bare_slot(Kind::Tabs(TabBarPlacement::Top));
    let none = lists::empty();
    let panes = lists::push(none, pane);
    s.active = 0;
    s.panes = panes;
    s
}
