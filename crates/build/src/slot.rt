// A row's slot: its lists copied out of the sections, and its children's numbers out of what push_spec wrote.
ghost use Rattle.std.specs.Prelude.{◌≡◌, ℕ, ◌+◌, ◌≤◌, ◌<◌, [], take, drop};
ghost use Rattle.rules.specs.Lists.{tabulate};
ghost use Rattle.rules.specs.Tree.{pane, tabs, split};
ghost use Rattle.lists.specs.Exact.{Exactly, IsIds, IsTiles, IsReals};
ghost use Rattle.table.specs.Row.{row_is};
ghost use Rattle.reader.specs.Section.{Held};
ghost use Rattle.table.specs.Sections.{Placed};
ghost use Rattle.table.specs.Rows.{panes_at, reals_at, table_of};
ghost use Rattle.checks.specs.Checks.{left_at, Room};
ghost use Rattle.build.specs.Push.{children_at, row_node};
ghost use Rattle.build.specs.Slots.{Fit, SlotIs};

use checks::entry::{pane_at, real_at};
use lists::blank::Blank;
use reader::cursor::Section;
use rules::model::{Axis, Ids, Kind, Reals, Sixteen, Slot, TabBarPlacement, TileId, Tiles};
use table::row::{TableRow, Taken};
use table::sections::Places;

// A list of n entries, each made of its number.
fn filled<T: Blank, F: Fn(usize) -> T>(n: usize, entry: F) -> Sixteen<T>
    ghost nth: { ℕ → T }
    requires few { n ≤ 16 }
    requires callable { (j : ℕ) → j < n → F.pre entry j }
    requires entries { (j : ℕ) (x : T) → j < n → F.post entry j x → x ≡ nth j }
    ensures { Exactly T.blank result.at result.len (tabulate nth n) }
{
    let mut at = [T::blank(); 16];
    for j in 0..n {
        at[j] = entry(j);
    }
    Sixteen { at, len: n }
}

fn panes_of(b: &[u8], t: Places, p: usize, n: usize) -> Ids
    requires placed { Placed b.now t }
    requires inside { p + n ≤ t.panes.count }
    requires few { n ≤ 16 }
    ensures { IsIds result (take n (drop p (panes_at b.now t))) }
{
    filled(n, move |j| pane_at(b, t, p + j))
}

// n of a section's shares or minima, after the first from.
fn reals_of(b: &[u8], reals: Section, from: usize, n: usize) -> Reals
    requires held { Held b.now reals }
    requires inside { from + n ≤ reals.count }
    requires few { n ≤ 16 }
    ensures { IsReals result (take n (drop from (reals_at b.now reals))) }
{
    filled(n, move |j| real_at(b, reals, from + j))
}

fn children_of(kids: &[u64; 1024], i: usize, n: usize) -> Tiles
    requires inside { i < 64 }
    requires few { n ≤ 16 }
    ensures { IsTiles result (children_at kids.now i n) }
{
    filled(
        n,
        |j| TileId {
            slot: kids[16 * i + j],
        },
    )
}

// A slot of a kind, with empty lists.
fn empty_slot(kind: Kind) -> Slot
    ensures kind { result.kind ≡ kind }
    ensures active { result.active ≡ 0 }
    ensures panes { IsIds result.panes [] }
    ensures children { IsTiles result.children [] }
    ensures shares { IsReals result.shares [] }
    ensures minima { IsReals result.minima [] }
{
    Slot {
        kind,
        active: 0,
        panes: lists::empty(),
        children: lists::empty(),
        shares: lists::empty(),
        minima: lists::empty(),
    }
}

// TileNode::Pane
fn pane_slot(x: u64) -> Slot
    ensures { SlotIs result (pane x) }
{
    empty_slot(Kind::Pane(x))
}

// TileNode::Tabs, of n panes after the first p.
pub fn tabs_slot(
    b: &[u8],
    t: Places,
    placement: TabBarPlacement,
    active: usize,
    p: usize,
    n: usize,
) -> Slot
    requires placed { Placed b.now t }
    requires inside { p + n ≤ t.panes.count }
    requires few { n ≤ 16 }
    ensures { SlotIs result (tabs placement active (take n (drop p (panes_at b.now t)))) }
{
    let panes = panes_of(b, t, p, n);
    Slot {
        active,
        panes,
        ..empty_slot(Kind::Tabs(placement))
    }
}

fn split_slot(axis: Axis, children: Tiles, shares: Reals, minima: Reals) -> Slot
    requires children { children.len ≤ 16 }
    requires shares { shares.len ≤ 16 }
    requires minima { minima.len ≤ 16 }
    ensures { SlotIs result (split axis (take children.len children.at) (take shares.len shares.at) (take minima.len minima.at)) }
{
    Slot {
        children,
        shares,
        minima,
        ..empty_slot(Kind::Split(axis))
    }
}

// The i-th row's, past what is taken: the arms of push_spec, with its children already known.
pub fn slot_of(
    b: &[u8],
    t: Places,
    kids: &[u64; 1024],
    row: TableRow,
    i: usize,
    taken: Taken,
) -> Slot
    requires placed { Placed b.now t }
    requires room { Room t (row_is row) taken }
    requires fit { Fit (row_is row) }
    requires inside { i < 64 }
    ensures { SlotIs result (row_node kids.now i (row_is row) (left_at (table_of b.now t) taken)) }
{
    match row {
        TableRow::Pane => pane_slot(pane_at(b, t, taken.panes)),
        TableRow::Tabs {
            placement,
            count,
            active,
        } => tabs_slot(b, t, placement, active, taken.panes, count),
        TableRow::Split {
            axis,
            count,
            shares,
            minima,
        } => {
            let children = children_of(kids, i, count);
            let shares = reals_of(b, t.shares, taken.shares, shares);
            let minima = reals_of(b, t.minima, taken.minima, minima);
            split_slot(axis, children, shares, minima)
        }
    }
}
