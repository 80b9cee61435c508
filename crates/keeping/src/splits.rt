// The parts of normalize_split that call nothing back: bad lists noted, a child that came back placed, and the split stored again.
// Kept: the four columns are four parameters (why: columns/src/lib.rt).
ghost use Rattle.std.specs.Prelude.{[], ◌≡◌, ℕ, ◌+◌, ◌≤◌, ◌<◌, get_or, set, is_none, unwrap_or};
ghost use Rattle.columns.specs.Columns.{Slim};
ghost use Rattle.melting.specs.Splits.{BadNoted, kids_in, Lent, PlacesIn, ClosesIn, empty_head, Stored};

use melting::{Placing, Tally, rows};
use noting::actions;
use rules::model::{Reals, RepairAction, TileId};
use sifting::{Counts, Kept, Kids, Walk};
use util::{minima as constraints, shares as util_shares};

// The bad lists of a split: k as they were given, l as they were mended.
pub fn split_noted(acts: &mut [[u64; 3]], n: usize, id: u64, k: Kids, l: Kids) -> usize
    requires listing { n + 2 ≤ 1300 }
    requires given_shares { k.shares.len ≤ 16 }
    requires given_minima { k.minima.len ≤ 16 }
    requires shares { l.shares.len ≤ 16 }
    requires minima { l.minima.len ≤ 16 }
    ensures { BadNoted id k l acts.old n acts.new result }
{
    let tile = TileId { slot: id };
    let compact = constraints::compact_constraints(l.minima);
    let fine = util_shares::eq_reals(compact, k.minima);
    let m = actions::note_action_if(acts, n, !fine, RepairAction::RepairedConstraints(tile));
    let same = util_shares::eq_reals(l.shares, k.shares);
    actions::note_action_if(acts, m, !same, RepairAction::RepairedShares(tile))
}

// A child that is kept: melted in, or placed as it is; none, where there is no room.
fn place_at(
    heads: &mut [[u64; 8]; 64],
    ids: &[[u64; 16]; 64],
    shares: &[[f64; 16]; 64],
    minima: &[[f64; 16]; 64],
    acts: &mut [[u64; 3]],
    cs: &mut [u64; 16],
    ss: &mut [f64; 16],
    ms: &mut [f64; 16],
    c: Counts,
    mode: u64,
    t: Tally,
    share: f64,
    minimum: f64,
    id: u64,
) -> Option<Placing>
    requires slim { (i : ℕ) → Slim (get_or heads.old i []) }
    requires tally { t.len ≤ 16 }
    requires listing { c.acts < 1300 }
    ensures { let p = unwrap_or result (record { tally = t; counts = c }) in Lent (kids_in cs.new ss.new ms.new p.tally.len p.tally.moved) × PlacesIn heads.old ids.now shares.now minima.now acts.old c mode (kids_in cs.old ss.old ms.old t.len t.moved) share minimum (Kept.At id) heads.new acts.new p.counts (kids_in cs.new ss.new ms.new p.tally.len p.tally.moved) (is_none result) }
{
    if id < 64 && rows::is_meltable(heads[id as usize], mode, minimum) {
        let i = id as usize;
        let given = rows::load(heads, ids, shares, minima, i);
        let tally = rows::melt_kids(cs, ss, ms, t, share, given)?;
        let melted = RepairAction::CollapsedSplit(TileId { slot: id });
        let n = actions::note_action(acts, c.acts, melted);
        heads[i] = [0; 8];
        return Some(Placing {
            tally,
            counts: Counts { acts: n, ..c },
        });
    }
    let tally = rows::place_one(cs, ss, ms, t, id, share, minimum)?;
    Some(Placing { tally, counts: c })
}

// A child's repair came back: dropped, melted in, or placed as it is; none, where there is no room.
pub fn place(
    heads: &mut [[u64; 8]; 64],
    ids: &[[u64; 16]; 64],
    shares: &[[f64; 16]; 64],
    minima: &[[f64; 16]; 64],
    acts: &mut [[u64; 3]],
    cs: &mut [u64; 16],
    ss: &mut [f64; 16],
    ms: &mut [f64; 16],
    c: Counts,
    mode: u64,
    t: Tally,
    share: f64,
    minimum: f64,
    kept: Kept,
) -> Option<Placing>
    requires slim { (i : ℕ) → Slim (get_or heads.old i []) }
    requires tally { t.len ≤ 16 }
    requires listing { c.acts < 1300 }
    requires narrow { kept ≡ Kept.Wide → ⊥ }
    ensures { let p = unwrap_or result (record { tally = t; counts = c }) in Lent (kids_in cs.new ss.new ms.new p.tally.len p.tally.moved) × PlacesIn heads.old ids.now shares.now minima.now acts.old c mode (kids_in cs.old ss.old ms.old t.len t.moved) share minimum kept heads.new acts.new p.counts (kids_in cs.new ss.new ms.new p.tally.len p.tally.moved) (is_none result) }
{
    match kept {
        Kept::At(id) => place_at(
            heads, ids, shares, minima, acts, cs, ss, ms, c, mode, t, share, minimum, id,
        ),
        Kept::Gone => Some(Placing {
            tally: Tally { moved: true, ..t },
            counts: c,
        }),
        Kept::Wide => None,
    }
}

// A slot emptied.
fn clear(heads: &mut [[u64; 8]; 64], id: u64)
    requires { id < 64 }
    ensures { heads.new ≡ set heads.old id empty_head }
{
    heads[id as usize] = [0; 8];
}

// A split's lists put into its slot.
fn store(
    heads: &mut [[u64; 8]; 64],
    ids: &mut [[u64; 16]; 64],
    shares: &mut [[f64; 16]; 64],
    minima: &mut [[f64; 16]; 64],
    id: u64,
    mode: u64,
    cs: &[u64; 16],
    n: usize,
    ss: Reals,
    ms: Reals,
)
    requires { id < 64 }
    ensures { Stored id mode cs.now n ss.at ss.len ms.at ms.len heads.old ids.old shares.old minima.old heads.new ids.new shares.new minima.new }
{
    let i = id as usize;
    heads[i] = [3, mode, 0, 0, n as u64, ss.len as u64, ms.len as u64, 0];
    ids[i] = *cs;
    let parts = ss.at;
    shares[i] = parts;
    let least = ms.at;
    minima[i] = least;
}

// Two children or more: the split stays, with its shares repaired.
fn keep_split(
    heads: &mut [[u64; 8]; 64],
    ids: &mut [[u64; 16]; 64],
    shares: &mut [[f64; 16]; 64],
    minima: &mut [[f64; 16]; 64],
    acts: &mut [[u64; 3]],
    cs: &[u64; 16],
    ss: &[f64; 16],
    ms: &[f64; 16],
    c: Counts,
    id: u64,
    mode: u64,
    old: Reals,
    t: Tally,
) -> Walk
    requires inside { id < 64 }
    requires tally { t.len ≤ 16 }
    requires given { old.len ≤ 16 }
    requires listing { c.acts < 1300 }
    requires many { 1 < t.len }
    ensures { ClosesIn heads.old ids.old shares.old minima.old acts.old c id mode old (kids_in cs.now ss.now ms.now t.len t.moved) heads.new ids.new shares.new minima.new acts.new result.counts result.kept }
{
    let n = t.len;
    let given = Reals { at: *ss, len: n };
    let repaired = util_shares::repaired_shares(n, given);
    let same = util_shares::eq_reals(repaired, old);
    let mended = RepairAction::RepairedShares(TileId { slot: id });
    let listed = actions::note_action_if(acts, c.acts, t.moved | !same, mended);
    let whole = Reals { at: *ms, len: n };
    let compact = constraints::compact_constraints(whole);
    store(
        heads, ids, shares, minima, id, mode, cs, n, repaired, compact,
    );
    Walk {
        kept: Kept::At(id),
        counts: Counts { acts: listed, ..c },
    }
}

// None left: the split goes; one: it takes the split's place; else the split stays.
pub fn split_done(
    heads: &mut [[u64; 8]; 64],
    ids: &mut [[u64; 16]; 64],
    shares: &mut [[f64; 16]; 64],
    minima: &mut [[f64; 16]; 64],
    acts: &mut [[u64; 3]],
    cs: &[u64; 16],
    ss: &[f64; 16],
    ms: &[f64; 16],
    c: Counts,
    id: u64,
    mode: u64,
    old: Reals,
    t: Tally,
) -> Walk
    requires inside { id < 64 }
    requires tally { t.len ≤ 16 }
    requires given { old.len ≤ 16 }
    requires listing { c.acts < 1300 }
    ensures { ClosesIn heads.old ids.old shares.old minima.old acts.old c id mode old (kids_in cs.now ss.now ms.now t.len t.moved) heads.new ids.new shares.new minima.new acts.new result.counts result.kept }
{
    let tile = TileId { slot: id };
    if t.len == 0 {
        let n = actions::note_action(acts, c.acts, RepairAction::RemovedInvalidNode(tile));
        clear(heads, id);
        return Walk {
            kept: Kept::Gone,
            counts: Counts { acts: n, ..c },
        };
    }
    if t.len == 1 {
        let first = cs[0];
        let n = actions::note_action(acts, c.acts, RepairAction::CollapsedSplit(tile));
        clear(heads, id);
        return Walk {
            kept: Kept::At(first),
            counts: Counts { acts: n, ..c },
        };
    }
    keep_split(
        heads, ids, shares, minima, acts, cs, ss, ms, c, id, mode, old, t,
    )
}
