// The operations but reorder_tab: the Rust's activate_pane, close_pane, split_pane, move_pane and insert_tile_at_target.
// Kept: the four columns are four parameters (why: columns/src/lib.rt).
ghost use Rattle.rules.specs.Tree.{Arena, node_at, set_node};
ghost use Rattle.rules.specs.Target.{in_tabs};
ghost use Rattle.rules.specs.Insert.{draft};
ghost use Rattle.rules.specs.Operations as Rule;
ghost use Rattle.rules.specs.Tree as Tree;
ghost use Rattle.columns.specs.Columns.{nodes_from};
ghost use Rattle.columns.specs.Pack.{Even};
ghost use Rattle.nodes.specs.Parts.{beside_of};
ghost use Rattle.docking.specs.Steps.{always, Does, Ready, Puts, Taken};

use docking::{Changed, near};
use nodes::{Beside, PaneLocation, Spares, find, slots, take, targets};
use rules::model::{Axis, Placement, TileId};
use rules::operation::DockTarget;
use rules::refusal::Refusal;
use tabbing::groups;
use util::shares;

// activate_pane, in a group.
fn activate_in(
    root: u64,
    group: TileId,
    index: usize,
    heads: &mut [[u64; 8]; 64],
    ids: &mut [[u64; 16]; 64],
    shares: &mut [[f64; 16]; 64],
    minima: &mut [[f64; 16]; 64],
) -> Result<Option<Changed>, Refusal>
    requires { Even heads.old ids.old shares.old minima.old }
    ensures { Does root (λ (a : Arena). Rule.activate_at (in_tabs group index) a) result heads.old ids.old shares.old minima.old heads.new ids.new shares.new minima.new }
{
    let s = slots::get_node(heads, ids, shares, minima, group);
    if groups::active_is(s, index) {
        return Ok(None);
    }
    let spare = slots::next_empty(heads, 0);
    let next = groups::set_active(s, index);
    slots::set_node(heads, ids, shares, minima, group, next);
    Ok(Some(Changed { root, spare }))
}

// activate_pane
pub fn activate_pane(
    root: u64,
    pane: u64,
    heads: &mut [[u64; 8]; 64],
    ids: &mut [[u64; 16]; 64],
    shares: &mut [[f64; 16]; 64],
    minima: &mut [[f64; 16]; 64],
) -> Result<Option<Changed>, Refusal>
    requires { Ready root heads.old ids.old shares.old minima.old }
    ensures { Does root (λ (a : Arena). Rule.activate_pane a pane) result heads.old ids.old shares.old minima.old heads.new ids.new shares.new minima.new }
{
    let l = find::find_pane(heads, ids, pane).ok_or(Refusal::InvalidPaneId)?;
    match l {
        PaneLocation::Tile { tile: _ } => Ok(None),
        PaneLocation::InTabs { group, index } => {
            activate_in(root, group, index, heads, ids, shares, minima)
        }
    }
}

// close_pane, over remove_pane. The last pane needs one new tile, the fresh root, and where one pane is left there is always an empty slot.
pub fn close_pane(
    root: u64,
    pane: u64,
    heads: &mut [[u64; 8]; 64],
    ids: &mut [[u64; 16]; 64],
    shares: &mut [[f64; 16]; 64],
    minima: &mut [[f64; 16]; 64],
) -> Result<Changed, Refusal>
    requires { Ready root heads.old ids.old shares.old minima.old }
    ensures { Does root (λ (a : Arena). Rule.close_pane a pane) (always result) heads.old ids.old shares.old minima.old heads.new ids.new shares.new minima.new }
{
    let l = find::find_pane(heads, ids, pane);
    if l.is_none() {
        return Err(Refusal::InvalidPaneId);
    }
    let spare = slots::next_empty(heads, 0);
    take::remove_pane(heads, ids, shares, minima, l);
    Ok(Changed { root, spare })
}

// A new pane tile beside one.
fn split_at(
    root: u64,
    pane: u64,
    b: Beside,
    heads: &mut [[u64; 8]; 64],
    ids: &mut [[u64; 16]; 64],
    shares: &mut [[f64; 16]; 64],
    minima: &mut [[f64; 16]; 64],
) -> Result<Changed, Refusal>
    requires { Ready root heads.old ids.old shares.old minima.old }
    ensures { Does root (λ (a : Arena). Rule.put_near a (Tree.pane pane) (beside_of b) (Rule.start a)) (always result) heads.old ids.old shares.old minima.old heads.new ids.new shares.new minima.new }
{
    let room = slots::spares(heads);
    let new = slots::pane_slot(pane);
    near::put_near(root, room, new, b, heads, ids, shares, minima)
}

// split_pane: the target is the pane's tile, or its whole group.
pub fn split_pane(
    root: u64,
    pane: u64,
    axis: Axis,
    new_pane: u64,
    placement: Placement,
    share: f64,
    heads: &mut [[u64; 8]; 64],
    ids: &mut [[u64; 16]; 64],
    shares: &mut [[f64; 16]; 64],
    minima: &mut [[f64; 16]; 64],
) -> Result<Changed, Refusal>
    requires { Ready root heads.old ids.old shares.old minima.old }
    ensures { Does root (λ (a : Arena). Rule.split_pane a pane axis new_pane placement share) (always result) heads.old ids.old shares.old minima.old heads.new ids.new shares.new minima.new }
{
    if !shares::is_valid_split_fraction(share) {
        return Err(Refusal::InvalidOperation);
    }
    let other = find::find_pane(heads, ids, new_pane);
    if other.is_some() {
        return Err(Refusal::DuplicatePane(new_pane));
    }
    let l = find::find_pane(heads, ids, pane).ok_or(Refusal::InvalidPaneId)?;
    match l {
        PaneLocation::Tile { tile } => split_at(
            root,
            new_pane,
            Beside {
                target: tile,
                axis,
                placement,
                share,
            },
            heads,
            ids,
            shares,
            minima,
        ),
        PaneLocation::InTabs { group, index: _ } => split_at(
            root,
            new_pane,
            Beside {
                target: group,
                axis,
                placement,
                share,
            },
            heads,
            ids,
            shares,
            minima,
        ),
    }
}

// Into a group: the pane is out of the slots already, so an index counts after that.
fn tab_into(
    root: u64,
    room: Spares,
    pane: u64,
    group: TileId,
    index: Option<usize>,
    heads: &mut [[u64; 8]; 64],
    ids: &mut [[u64; 16]; 64],
    shares: &mut [[f64; 16]; 64],
    minima: &mut [[f64; 16]; 64],
) -> Result<Changed, Refusal>
    requires { Even heads.old ids.old shares.old minima.old }
    ensures { Puts (Taken root room (nodes_from heads.old ids.old shares.old minima.old)) (λ (a : Arena). Rule.change_only a (set_node group (Rule.tabbed_in pane index (node_at (nodes_from heads.old ids.old shares.old minima.old) group)) (nodes_from heads.old ids.old shares.old minima.old))) result heads.new ids.new shares.new minima.new }
{
    let s = slots::get_node(heads, ids, shares, minima, group);
    if groups::is_full(s) {
        return Err(Refusal::TooWide);
    }
    let next = groups::tabbed_in(s, pane, index);
    slots::set_node(heads, ids, shares, minima, group, next);
    Ok(Changed {
        root,
        spare: room.first,
    })
}

// insert_tile_at_target: to root, a Top group with the pane, horizontally after, fraction 0.5.
fn insert_tile_at_target(
    root: u64,
    room: Spares,
    pane: u64,
    target: DockTarget,
    heads: &mut [[u64; 8]; 64],
    ids: &mut [[u64; 16]; 64],
    shares: &mut [[f64; 16]; 64],
    minima: &mut [[f64; 16]; 64],
) -> Result<Changed, Refusal>
    requires even { Even heads.old ids.old shares.old minima.old }
    requires from { (a : Arena) × Taken root room (nodes_from heads.old ids.old shares.old minima.old) a }
    ensures { Puts (Taken root room (nodes_from heads.old ids.old shares.old minima.old)) (λ (a : Arena). Rule.insert_tile_at_target a pane target (draft a.root (nodes_from heads.old ids.old shares.old minima.old))) result heads.new ids.new shares.new minima.new }
{
    match target {
        DockTarget::Root => {
            let new = slots::top_group(pane);
            let b = Beside {
                target: TileId { slot: root },
                axis: Axis::Horizontal,
                placement: Placement::After,
                share: 0.5,
            };
            near::put_near(root, room, new, b, heads, ids, shares, minima)
        }
        DockTarget::Split {
            tile,
            axis,
            placement,
            ratio,
        } => {
            let new = slots::pane_slot(pane);
            let b = Beside {
                target: tile,
                axis,
                placement,
                share: ratio,
            };
            near::put_near(root, room, new, b, heads, ids, shares, minima)
        }
        DockTarget::TabInto { group, index } => tab_into(
            root, room, pane, group, index, heads, ids, shares, minima,
        ),
    }
}

// move_pane: the target is checked, the pane is taken out, then put in. What was empty before stays what new tiles take.
pub fn move_pane(
    root: u64,
    pane: u64,
    to: DockTarget,
    heads: &mut [[u64; 8]; 64],
    ids: &mut [[u64; 16]; 64],
    shares: &mut [[f64; 16]; 64],
    minima: &mut [[f64; 16]; 64],
) -> Result<Changed, Refusal>
    requires { Ready root heads.old ids.old shares.old minima.old }
    ensures { Does root (λ (a : Arena). Rule.move_pane a pane to) (always result) heads.old ids.old shares.old minima.old heads.new ids.new shares.new minima.new }
{
    let l = find::find_pane(heads, ids, pane);
    if l.is_none() {
        return Err(Refusal::InvalidPaneId);
    }
    targets::validate_target(heads, ids, shares, minima, to)?;
    let room = slots::spares(heads);
    take::remove_pane(heads, ids, shares, minima, l);
    insert_tile_at_target(root, room, pane, to, heads, ids, shares, minima)
}
