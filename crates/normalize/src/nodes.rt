// normalize_node and normalize_split: a tile's repair calls a split's repair, which calls back. Slots that are not claimed grow fewer.
// Kept: the four columns are four parameters (why: columns/src/lib.rt).
ghost use Rattle.std.specs.Prelude.{[], ◌≡◌, Bool, ◌+◌, ◌*◌, ◌≤◌, ◌<◌, get_or};
ghost use Rattle.forest.specs.Lists.{free};
ghost use Rattle.sifting.specs.Work.{cols, Sized};
ghost use Rattle.columns.specs.Columns.{Slim};
ghost use Rattle.sifting.specs.Walked.{Walked};
ghost use Rattle.normalize.specs.Opens.{OpensIn, is_wide};

use crate::Opened;
use keeping::splits;
use melting::{Tally, rows};
use sifting::{Counts, Kept, Walk, leaves};

// Whether a step answered that a list is too wide.
fn is_wide(k: Kept) -> bool
    ensures { result ≡ is_wide k }
{
    matches!(k, Kept::Wide)
}

// The start of normalize_split: the slot is claimed, the lists are read and mended, and bad ones are noted.
fn open_split(
    heads: &[[u64; 8]; 64],
    ids: &[[u64; 16]; 64],
    shares: &[[f64; 16]; 64],
    minima: &[[f64; 16]; 64],
    claimed: &mut [bool; 64],
    acts: &mut [[u64; 3]],
    c: Counts,
    id: u64,
) -> Opened
    requires inside { id < 64 }
    requires slim { Slim (get_or heads.now id []) }
    requires unclaimed { get_or claimed.old id Bool.false ≡ Bool.false }
    requires listing { c.acts + 19 * free claimed.old ≤ 1216 }
    requires split { 2 < get_or (get_or heads.now id []) 0 0 }
    ensures opens { OpensIn heads.now ids.now shares.now minima.now claimed.old acts.old c id claimed.new acts.new result }
    ensures few { result.rows.children.len ≤ 16 }
{
    let i = id as usize;
    claimed[i] = true;
    let row = rows::load(heads, ids, shares, minima, i);
    let rows = rows::mended(row);
    let n = splits::split_noted(acts, c.acts, id, row, rows);
    Opened {
        mode: heads[i][1],
        given: row.shares,
        rows,
        counts: Counts { acts: n, ..c },
    }
}

// normalize_node
#[cycle(normalize_node_normalize_split)]
pub fn normalize_node(
    heads: &mut [[u64; 8]; 64],
    ids: &mut [[u64; 16]; 64],
    shares: &mut [[f64; 16]; 64],
    minima: &mut [[f64; 16]; 64],
    claimed: &mut [bool; 64],
    seen: &mut [u64; 1024],
    acts: &mut [[u64; 3]],
    c: Counts,
    id: u64,
) -> Walk
    requires sized { Sized (cols heads.old ids.old shares.old minima.old claimed.old seen.old acts.old c) }
    requires listing { c.acts + 19 * free claimed.old ≤ 1216 }
    ensures { Walked (cols heads.old ids.old shares.old minima.old claimed.old seen.old acts.old c) (cols heads.new ids.new shares.new minima.new claimed.new seen.new acts.new result.counts) result.kept id }
{
    if 64 <= id {
        return leaves::gone(acts, c, id);
    }
    let i = id as usize;
    if claimed[i] {
        return leaves::gone(acts, c, id);
    }
    match heads[i][0] {
        0 => leaves::gone(acts, c, id),
        1 => leaves::pane_step(heads, claimed, seen, acts, c, id),
        2 => leaves::group_step(heads, ids, claimed, seen, acts, c, id),
        _ => normalize_split(heads, ids, shares, minima, claimed, seen, acts, c, id),
    }
}

// normalize_split, of a split whose slot is not claimed
#[cycle(normalize_node_normalize_split)]
fn normalize_split(
    heads: &mut [[u64; 8]; 64],
    ids: &mut [[u64; 16]; 64],
    shares: &mut [[f64; 16]; 64],
    minima: &mut [[f64; 16]; 64],
    claimed: &mut [bool; 64],
    seen: &mut [u64; 1024],
    acts: &mut [[u64; 3]],
    c: Counts,
    id: u64,
) -> Walk
    requires sized { Sized (cols heads.old ids.old shares.old minima.old claimed.old seen.old acts.old c) }
    requires listing { c.acts + 19 * free claimed.old ≤ 1216 }
    requires inside { id < 64 }
    requires unclaimed { get_or claimed.old id Bool.false ≡ Bool.false }
    requires split { 2 < get_or (get_or heads.old id []) 0 0 }
    ensures { Walked (cols heads.old ids.old shares.old minima.old claimed.old seen.old acts.old c) (cols heads.new ids.new shares.new minima.new claimed.new seen.new acts.new result.counts) result.kept id }
{
    let o = open_split(heads, ids, shares, minima, claimed, acts, c, id);
    let rows = o.rows;
    let children = rows.children;
    let olds = rows.shares;
    let least = rows.minima;
    let mut counts = o.counts;
    // the children that are kept, in place: the places past the tally's number are not read
    let mut cs = [0; 16];
    let mut ss = [0.0; 16];
    let mut ms = [0.0; 16];
    let mut tally = Tally {
        len: 0,
        moved: false,
    };
    for j in 0..children.len {
        let child = children.at[j];
        let w = normalize_node(
            heads, ids, shares, minima, claimed, seen, acts, counts, child,
        );
        if is_wide(w.kept) {
            return w;
        }
        let share = olds.at[j];
        let minimum = least.at[j];
        let Some(p) = splits::place(
            heads, ids, shares, minima, acts, &mut cs, &mut ss, &mut ms, w.counts, o.mode, tally,
            share, minimum, w.kept,
        ) else {
            return Walk {
                kept: Kept::Wide,
                counts: w.counts,
            };
        };
        tally = p.tally;
        counts = p.counts;
    }
    splits::split_done(
        heads, ids, shares, minima, acts, &cs, &ss, &ms, counts, id, o.mode, o.given, tally,
    )
}
