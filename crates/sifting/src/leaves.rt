// A tile that is no good, a pane tile and a group: the parts of normalize_node that call nothing back.
ghost use Rattle.std.specs.Prelude.{[], ◌≡◌, ◌≤◌, ◌<◌, get_or};
ghost use Rattle.sifting.specs.Steps.{Open, Dropped, LeafWalked, GroupWalked};

use crate::{Counts, Kept, Walk, panes};
use noting::actions;
use rules::model::{Ids, RepairAction, TileId};

// A bad, empty or claimed id: noted, and dropped.
pub fn gone(acts: &mut [[u64; 3]], c: Counts, id: u64) -> Walk
    requires { c.acts < 1300 }
    ensures { Dropped id acts.old c acts.new result.kept result.counts }
{
    let invalid = RepairAction::RemovedInvalidNode(TileId { slot: id });
    let n = actions::note_action(acts, c.acts, invalid);
    Walk {
        kept: Kept::Gone,
        counts: Counts { acts: n, ..c },
    }
}

// A pane tile, in a slot that is not claimed.
pub fn pane_step(
    heads: &mut [[u64; 8]; 64],
    claimed: &mut [bool; 64],
    seen: &mut [u64; 1024],
    acts: &mut [[u64; 3]],
    c: Counts,
    id: u64,
) -> Walk
    requires slot { Open heads.old claimed.old c id }
    requires pane { get_or (get_or heads.old id []) 0 0 ≡ 1 }
    ensures { LeafWalked heads.old claimed.old seen.old acts.old c heads.new claimed.new seen.new acts.new result.counts result.kept id }
{
    let slot = id as usize;
    claimed[slot] = true;
    let pane = heads[slot][2];
    if panes::saw(seen, c.seen, pane) {
        let tile = TileId { slot: id };
        let n = actions::note_action(
            acts,
            c.acts,
            RepairAction::RemovedDuplicatePane { pane, tile },
        );
        heads[slot] = [0; 8];
        return Walk {
            kept: Kept::Gone,
            counts: Counts { acts: n, ..c },
        };
    }
    let n = panes::see(seen, c.seen, pane);
    Walk {
        kept: Kept::At(id),
        counts: Counts { seen: n, ..c },
    }
}

// A group, in a slot that is not claimed.
pub fn group_step(
    heads: &mut [[u64; 8]; 64],
    ids: &mut [[u64; 16]; 64],
    claimed: &mut [bool; 64],
    seen: &mut [u64; 1024],
    acts: &mut [[u64; 3]],
    c: Counts,
    id: u64,
) -> Walk
    requires slot { Open heads.old claimed.old c id }
    requires group { get_or (get_or heads.old id []) 0 0 ≡ 2 }
    requires few { get_or (get_or heads.old id []) 4 0 ≤ 16 }
    ensures { GroupWalked heads.old ids.old claimed.old seen.old acts.old c heads.new ids.new claimed.new seen.new acts.new result.counts result.kept id }
{
    let i = id as usize;
    claimed[i] = true;
    let h = heads[i];
    let old = Ids {
        at: ids[i],
        len: h[4] as usize,
    };
    let s = panes::retain(seen, acts, c, id, old);
    let kept = s.list;
    let d = s.counts;
    let tile = TileId { slot: id };
    if kept.len == 0 {
        let n = actions::note_action(acts, d.acts, RepairAction::RemovedInvalidNode(tile));
        heads[i] = [0; 8];
        return Walk {
            kept: Kept::Gone,
            counts: Counts { acts: n, ..d },
        };
    }
    let active = panes::active_of(old, h[3] as usize, kept) as u64;
    let n = actions::note_action_if(
        acts,
        d.acts,
        h[3] != active,
        RepairAction::RepairedActiveTab(tile),
    );
    let at = kept.at;
    ids[i] = at;
    heads[i] = [2, h[1], 0, active, kept.len as u64, 0, 0, 0];
    Walk {
        kept: Kept::At(id),
        counts: Counts { acts: n, ..d },
    }
}
