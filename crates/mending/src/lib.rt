// Repair of lent arrays: the arena in its columns, its actions in the list that is lent, the answer told.
// Kept: the four columns are four parameters (why: columns/src/lib.rt).
#![tactic(auto)]

ghost use Rattle.std.specs.Prelude.{◌≡◌, true, not, ◌&&◌, List, ℕ};
ghost use Rattle.rules.specs.Lists.{any_of};
ghost use Rattle.rules.specs.Repair.{repair};
ghost use Rattle.forest.specs.Still.{is_still};
ghost use Rattle.columns.specs.Pack.{over_head};
ghost use Rattle.columns.specs.Shown.{arena_from, Plain};
ghost use Rattle.coding.specs.Lent.{lot};
ghost use Rattle.mending.specs.Mends.{Mends};

use columns::unpack;
use crossing::{actions, tidy, told};
use lending::back::{self, Kept};

// Whether no length is over 16, and repair would list nothing: by a walk that only reads.
pub fn is_still(
    root: u64,
    heads: &[[u64; 8]; 64],
    ids: &[[u64; 16]; 64],
    shares: &[[f64; 16]; 64],
    minima: &[[f64; 16]; 64],
) -> bool
    ensures { (v : ℕ) → result ≡ (not (any_of over_head heads.now) && is_still (repair (arena_from root v heads.now ids.now shares.now minima.now))) }
{
    if unpack::heads_over(heads) {
        return false;
    }
    calm::whole::calm_columns(root, heads, ids, shares, minima)
}

// A repair that lists nothing is accepted: no columns are kept for a refusal, and the list of actions is the silent one. Its walk is still made, since it
// writes a minimum's minus zero as zero.
pub fn mend_still(
    root: u64,
    revision: u64,
    top: &mut [u64; 2],
    heads: &mut [[u64; 8]; 64],
    ids: &mut [[u64; 16]; 64],
    shares: &mut [[f64; 16]; 64],
    minima: &mut [[f64; 16]; 64],
    out: &mut [u64; 4],
) -> u64
    requires { Plain heads.old ids.old shares.old minima.old × (is_still (repair (arena_from root revision heads.old ids.old shares.old minima.old)) ≡ true) }
    ensures { (acts : List (List ℕ)) → Mends (repair (arena_from root revision heads.old ids.old shares.old minima.old)) (lot top.old heads.old ids.old shares.old minima.old) acts (lot top.new heads.new ids.new shares.new minima.new) acts out.new result }
{
    let mut silent = [[0; 3]; 1];
    let done = settling::settle::repair_columns(root, heads, ids, shares, minima, &mut silent);
    let d = done.unwrap();
    back::store(d.root, revision, top, heads);
    told::tell(Ok(()), 0, 0, out)
}

// Any repair: a refusal puts back the columns as they were kept, and lists nothing.
pub fn mend(
    root: u64,
    revision: u64,
    top: &mut [u64; 2],
    heads: &mut [[u64; 8]; 64],
    ids: &mut [[u64; 16]; 64],
    shares: &mut [[f64; 16]; 64],
    minima: &mut [[f64; 16]; 64],
    acts: &mut [[u64; 3]; 1300],
    out: &mut [u64; 4],
) -> u64
    ensures { Mends (repair (arena_from root revision heads.old ids.old shares.old minima.old)) (lot top.old heads.old ids.old shares.old minima.old) acts.old (lot top.new heads.new ids.new shares.new minima.new) acts.new out.new result }
{
    let old = Kept {
        heads: *heads,
        ids: *ids,
        shares: *shares,
        minima: *minima,
    };
    tidy::tidy_lent(heads);
    let mut list = [[0; 3]; 1300];
    match settling::settle::repair_columns(root, heads, ids, shares, minima, &mut list) {
        Ok(done) => {
            actions::write(&list, done.count, acts);
            back::store(done.root, revision, top, heads);
            told::tell(Ok(()), done.count as u64, 0, out)
        }
        Err(e) => {
            back::put_back(&old, heads, ids, shares, minima);
            told::tell(Err(e), 0, 0, out)
        }
    }
}
