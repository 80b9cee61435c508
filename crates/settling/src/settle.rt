// Repair of an arena's columns in place. A refused one may leave them half done: who must have them as they were keeps a copy.
// Kept: the four columns are four parameters (why: columns/src/lib.rt).
ghost use Rattle.std.specs.Prelude.{◌≡◌, Bool, ◌+◌, ◌≤◌, Ok};
ghost use Rattle.rules.specs.Lists.{any_of};
ghost use Rattle.columns.specs.Pack.{over_head};
ghost use Rattle.columns.specs.Shown.{Plain};
ghost use Rattle.settling.specs.Settle.{Finishes, Plants, Settles, Mends};

use crate::Settled;
use columns::unpack;
use normalize::nodes;
use noting::sweep;
use rules::refusal::Refusal;
use sifting::{Counts, Kept};

// The sweep, under the root that was kept.
fn finish(
    heads: &mut [[u64; 8]; 64],
    claimed: &[bool; 64],
    acts: &mut [[u64; 3]],
    n: usize,
    root: u64,
) -> Settled
    requires { n + 64 ≤ 1300 }
    ensures { Finishes heads.old claimed.now acts.old n root heads.new acts.new (Ok result) }
{
    let count = sweep::sweep(heads, claimed, acts, n);
    Settled { root, count }
}

// Nothing was kept: an empty Hidden group in the spare slot becomes the root; 64 stands for no slot.
fn plant(
    heads: &mut [[u64; 8]; 64],
    claimed: &mut [bool; 64],
    acts: &mut [[u64; 3]],
    n: usize,
    spare: u64,
) -> Result<Settled, Refusal>
    requires { n + 64 ≤ 1300 }
    ensures { Plants heads.old claimed.old acts.old n spare heads.new acts.new result }
{
    if 64 <= spare {
        return Err(Refusal::ArenaFull);
    }
    let i = spare as usize;
    heads[i] = [2, 0, 0, 0, 0, 0, 0, 0];
    claimed[i] = true;
    Ok(finish(heads, claimed, acts, n, spare))
}

// normalize_with_report of the arena that columns show, whose lists are all there. A fresh root goes into the spare slot; 64 stands for no slot.
pub fn settle(
    root: u64,
    spare: u64,
    heads: &mut [[u64; 8]; 64],
    ids: &mut [[u64; 16]; 64],
    shares: &mut [[f64; 16]; 64],
    minima: &mut [[f64; 16]; 64],
    acts: &mut [[u64; 3]],
) -> Result<Settled, Refusal>
    requires plain { Plain heads.old ids.old shares.old minima.old }
    requires whole { any_of over_head heads.old ≡ Bool.false }
    ensures { Settles root spare heads.old ids.old shares.old minima.old heads.new ids.new shares.new minima.new acts.new result }
{
    let mut claimed = [false; 64];
    let mut seen = [0; 1024];
    let w = nodes::normalize_node(
        heads,
        ids,
        shares,
        minima,
        &mut claimed,
        &mut seen,
        acts,
        Counts { seen: 0, acts: 0 },
        root,
    );
    let n = w.counts.acts;
    match w.kept {
        Kept::At(top) => Ok(finish(heads, &claimed, acts, n, top)),
        Kept::Gone => plant(heads, &mut claimed, acts, n, spare),
        Kept::Wide => Err(Refusal::TooWide),
    }
}

// The Rust's repair, of columns: a list given too long is refused before anything else.
pub fn repair_columns(
    root: u64,
    heads: &mut [[u64; 8]; 64],
    ids: &mut [[u64; 16]; 64],
    shares: &mut [[f64; 16]; 64],
    minima: &mut [[f64; 16]; 64],
    acts: &mut [[u64; 3]],
) -> Result<Settled, Refusal>
    requires { Plain heads.old ids.old shares.old minima.old }
    ensures { Mends root heads.old ids.old shares.old minima.old heads.new ids.new shares.new minima.new acts.new result }
{
    if unpack::heads_over(heads) {
        return Err(Refusal::TooWide);
    }
    let spare = sweep::first_empty(heads);
    settle(root, spare, heads, ids, shares, minima, acts)
}
