// Cases made by hand: the marked examples E7 to E10 of document 01, fractions at their ends and the last revision.
ghost use Rattle.std.specs.Prelude.{◌≤◌};

use crate::cases;
use nodes::slots;
use rules::model::{Axis, Placement};
use rules::operation::TileOp;

// ---- the marked examples

fn e7() -> bool {
    let t = cases::row(2);
    let a = cases::with_pane(t, 3, 3);
    let b = cases::with_split(
        a,
        0,
        Axis::Horizontal,
        cases::triple(3, 1, 2),
        cases::shares(0.25, 0.75, 1.0),
    );
    let wanted = cases::at_revision(b, 8);
    let op = cases::split_pane(Axis::Horizontal, Placement::Before, 0.25);
    cases::gives(t, op, wanted)
}

fn e8() -> bool {
    let t = cases::row(2);
    let a = cases::with_pane(t, 3, 3);
    let b = cases::with_split(
        a,
        4,
        Axis::Vertical,
        cases::pair(1, 3),
        lists::two(0.75, 0.25),
    );
    let c = cases::with_split(
        b,
        0,
        Axis::Horizontal,
        cases::pair(4, 2),
        lists::two(1.0, 1.0),
    );
    let wanted = cases::at_revision(c, 8);
    let op = cases::split_pane(Axis::Vertical, Placement::After, 0.25);
    cases::gives(t, op, wanted)
}

fn e9() -> bool {
    let t = cases::row(3);
    let group = slots::top_group(3);
    let a = cases::with(t, 4, group);
    let b = cases::with_none(cases::with_none(a, 0), 3);
    let c = cases::with_split(
        b,
        5,
        Axis::Horizontal,
        cases::triple(1, 2, 4),
        cases::shares(0.5, 0.5, 0.5),
    );
    let wanted = cases::at_revision(cases::with_root(c, 5), 8);
    let op = cases::to_root(3);
    cases::gives(t, op, wanted)
}

fn e10() -> bool {
    let t = cases::with_pane(cases::blank(7), 0, 1);
    let op = cases::to_root(1);
    cases::keeps(t, op, 6)
}

fn marked() -> u64
    ensures { result ≤ 4 }
{
    u64::from(e7()) + u64::from(e8()) + u64::from(e9()) + u64::from(e10())
}

// ---- fractions 0 and 1, and the last revision

fn bad_fraction(share: f64) -> bool {
    let t = cases::row(2);
    let op = cases::split_pane(Axis::Horizontal, Placement::Before, share);
    cases::keeps(t, op, 9)
}

// Nothing changes, so the last revision does not matter.
fn idle_at_the_end() -> bool {
    let t = cases::at_revision(cases::row(2), 18446744073709551615);
    let op = TileOp::ActivatePane { pane: 1 };
    cases::keeps(t, op, 0)
}

fn change_at_the_end() -> bool {
    let t = cases::at_revision(cases::row(3), 18446744073709551615);
    let op = TileOp::ClosePane { pane: 1 };
    cases::keeps(t, op, 11)
}

fn edges() -> u64
    ensures { result ≤ 4 }
{
    u64::from(bad_fraction(0.0))
        + u64::from(bad_fraction(1.0))
        + u64::from(idle_at_the_end())
        + u64::from(change_at_the_end())
}

// How many of the 8 agree.
pub fn agreed() -> u64
    ensures { result ≤ 8 }
{
    marked() + edges()
}
