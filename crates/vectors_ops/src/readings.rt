// Cases made by hand: readings of document 01 that are easy to get wrong.
ghost use Rattle.std.specs.Prelude.{◌≤◌};

use crate::cases;
use columns::pack;
use nodes::slots;
use rules::model::{Axis, Kind, Placement, TabBarPlacement, TileId, TileTree};
use rules::operation::{DockTarget, TileOp};

// ---- the pane's own group

fn move_beside(pane: u64, slot: u64, axis: Axis, placement: Placement, ratio: f64) -> TileOp {
    let tile = TileId { slot };
    let target = DockTarget::Split {
        tile,
        axis,
        placement,
        ratio,
    };
    TileOp::MovePane { pane, target }
}

// A pane alone in its group, moved into that group: only the revision changes.
fn own_group() -> bool {
    let t = cases::with(cases::row(2), 1, slots::top_group(1));
    let wanted = cases::at_revision(t, 8);
    let group = TileId { slot: 1 };
    let target = DockTarget::TabInto { group, index: None };
    let op = TileOp::MovePane { pane: 1, target };
    cases::gives(t, op, wanted)
}

// Beside that group: emptied, it is there until repair, so the pane gets a part of its share, and its place goes.
fn beside_own_group() -> bool {
    let a = cases::with(cases::row(2), 2, slots::top_group(2));
    let t = cases::with_split(
        a,
        0,
        Axis::Horizontal,
        cases::pair(1, 2),
        lists::two(3.0, 1.0),
    );
    let b = cases::with_pane(cases::with_none(t, 2), 3, 2);
    let c = cases::with_split(
        b,
        0,
        Axis::Horizontal,
        cases::pair(1, 3),
        lists::two(3.0, 0.25),
    );
    let wanted = cases::at_revision(c, 8);
    let op = move_beside(2, 2, Axis::Horizontal, Placement::Before, 0.25);
    cases::gives(t, op, wanted)
}

// A root that is a group of one, moved to the root: the new group is all that is left, in a new slot.
fn own_root() -> bool {
    let group = slots::top_group(1);
    let t = cases::with(cases::blank(7), 0, group);
    let a = cases::with_root(cases::with(cases::blank(7), 1, group), 1);
    let wanted = cases::at_revision(a, 8);
    let op = cases::to_root(1);
    cases::gives(t, op, wanted)
}

fn own() -> u64
    ensures { result ≤ 3 }
{
    u64::from(own_group()) + u64::from(beside_own_group()) + u64::from(own_root())
}

// ---- lists of more than 16, and the last pane

// The dead place counts until repair, so a move within a split of 16 is refused.
fn full_split() -> bool {
    let t = cases::row(16);
    let op = move_beside(1, 5, Axis::Horizontal, Placement::After, 0.5);
    cases::keeps(t, op, 3)
}

// Fifteen panes and a column of a row of two and one: without the one, the two would melt in beside the fifteen.
fn melting() -> TileTree {
    let a = cases::with_split(
        cases::row(16),
        16,
        Axis::Vertical,
        cases::pair(17, 18),
        lists::two(1.0, 1.0),
    );
    let b = cases::with_split(
        a,
        17,
        Axis::Horizontal,
        cases::pair(19, 20),
        lists::two(1.0, 1.0),
    );
    let c = cases::with_pane(cases::with_pane(b, 18, 18), 19, 19);
    cases::with_pane(c, 20, 20)
}

// The one closed, or moved beside another pane: too wide after repair.
fn close_melts() -> bool {
    let op = TileOp::ClosePane { pane: 18 };
    cases::keeps(melting(), op, 3)
}

fn move_melts() -> bool {
    let op = move_beside(18, 1, Axis::Vertical, Placement::After, 0.5);
    cases::keeps(melting(), op, 3)
}

// The last pane goes: an empty Hidden group in the lowest slot that was empty.
fn last_pane() -> bool {
    let t = cases::with_pane(cases::blank(7), 0, 1);
    let s = pack::bare_slot(Kind::Tabs(TabBarPlacement::Hidden));
    let a = cases::with_root(cases::with(cases::blank(7), 1, s), 1);
    let wanted = cases::at_revision(a, 8);
    let op = TileOp::ClosePane { pane: 1 };
    cases::gives(t, op, wanted)
}

fn wide() -> u64
    ensures { result ≤ 4 }
{
    u64::from(full_split())
        + u64::from(close_melts())
        + u64::from(move_melts())
        + u64::from(last_pane())
}

// ---- the lone empty root

fn lone() -> TileTree {
    let s = pack::bare_slot(Kind::Tabs(TabBarPlacement::Hidden));
    cases::with(cases::blank(7), 0, s)
}

fn reorder(slot: u64) -> TileOp {
    let group = TileId { slot };
    TileOp::ReorderTab {
        group,
        pane: 1,
        index: 0,
    }
}

fn lone_split(share: f64) -> TileOp {
    cases::split_pane(Axis::Horizontal, Placement::After, share)
}

fn lone_root() -> u64
    ensures { result ≤ 7 }
{
    let t = lone();
    u64::from(cases::keeps(t, TileOp::ActivatePane { pane: 1 }, 7))
        + u64::from(cases::keeps(t, TileOp::ClosePane { pane: 1 }, 7))
        + u64::from(cases::keeps(t, cases::to_root(1), 7))
        + u64::from(cases::keeps(t, lone_split(0.5), 7))
        + u64::from(cases::keeps(t, lone_split(1.0), 9))
        + u64::from(cases::keeps(t, reorder(0), 7))
        + u64::from(cases::keeps(t, reorder(1), 6))
}

// How many of the 14 agree.
pub fn agreed() -> u64
    ensures { result ≤ 14 }
{
    own() + wide() + lone_root()
}
