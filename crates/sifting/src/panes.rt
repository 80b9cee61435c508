// The panes seen, and the panes of a group that are kept: the first sight of a pane wins.
ghost use Rattle.std.specs.Prelude.{◌≡◌, [], ◌∷◌, ◌++◌, ◌+◌, ◌≤◌, ◌<◌, take};
ghost use Rattle.std.proofs.Math.ListN.{get_elem?};
ghost use Rattle.rules.specs.Lists as Lists;
ghost use Rattle.rules.specs.Repair.{active_of};
ghost use Rattle.rules.specs.Tree as Tree;
ghost use Rattle.sifting.specs.Steps.{Sifts, Retains};

use crate::Counts;
use noting::actions;
use rules::model::{Ids, RepairAction, TileId};

// `panes.contains(&pane)`
pub fn saw(seen: &[u64; 1024], n: usize, pane: u64) -> bool
    requires { n ≤ 1024 }
    ensures { result ≡ Lists.contains pane (take n seen.now) }
{
    seen[..n].contains(&pane)
}

// `panes.push(pane)`: the number of panes after it.
pub fn see(seen: &mut [u64; 1024], n: usize, pane: u64) -> usize
    requires { n < 1024 }
    ensures { (result ≡ n + 1) × (take result seen.new ≡ take n seen.old ++ pane ∷ []) }
{
    seen[n] = pane;
    n + 1
}

// The panes of a group kept so far, and the counts.
#[derive(Clone, Copy)]
pub struct Sift {
    pub list: Ids,
    pub counts: Counts,
}

// The closure of `tabs.panes.retain`, at one pane.
fn keep_pane(seen: &mut [u64; 1024], acts: &mut [[u64; 3]], s: Sift, id: u64, pane: u64) -> Sift
    requires place { s.list.len < 16 }
    requires sight { s.counts.seen < 1024 }
    requires listing { s.counts.acts < 1300 }
    ensures { Sifts id pane seen.old acts.old s seen.new acts.new result }
{
    let c = s.counts;
    if saw(seen, c.seen, pane) {
        let tile = TileId { slot: id };
        let n = actions::note_action(
            acts,
            c.acts,
            RepairAction::RemovedDuplicatePane { pane, tile },
        );
        return Sift {
            list: s.list,
            counts: Counts { acts: n, ..c },
        };
    }
    let n = see(seen, c.seen, pane);
    Sift {
        list: lists::push(s.list, pane),
        counts: Counts { seen: n, ..c },
    }
}

// `tabs.panes.retain`
pub fn retain(seen: &mut [u64; 1024], acts: &mut [[u64; 3]], c: Counts, id: u64, panes: Ids) -> Sift
    requires few { panes.len ≤ 16 }
    requires sights { c.seen + 16 ≤ 1024 }
    requires listing { c.acts + 16 ≤ 1300 }
    ensures { Retains id (Tree.ids panes) seen.old acts.old c seen.new acts.new result.list result.counts }
{
    let at = panes.at;
    let n = panes.len;
    let mut s = Sift {
        list: lists::empty(),
        counts: c,
    };
    for j in 0..n {
        s = keep_pane(seen, acts, s, id, at[j]);
    }
    s
}

// The active index, found again by its pane; 0 where there was none, or it is gone.
pub fn active_of(panes: Ids, active: usize, kept: Ids) -> usize
    requires few { panes.len ≤ 16 }
    requires fewer { kept.len ≤ 16 }
    ensures { result ≡ active_of (get_elem? (Tree.ids panes) active) (Tree.ids kept) }
{
    if panes.len <= active {
        return 0;
    }
    let pane = lists::get(panes, active, 0);
    lists::position(kept, pane).unwrap_or(0)
}
