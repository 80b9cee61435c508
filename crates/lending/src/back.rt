// What a call leaves in the lent arrays: the columns that it made there, in codes that every call takes, or those that were lent.
// Kept: the four columns are four parameters (why: columns/src/lib.rt).
ghost use Rattle.std.specs.Prelude.{◌≡◌, List, map, ℕ, Float};
ghost use Rattle.rules.specs.Tree.{bar_code, axis_code};
ghost use Rattle.columns.specs.Columns.{bar_from, axis_from};
ghost use Rattle.columns.specs.Shown.{arena_from};
ghost use Rattle.coding.specs.Lent.{lot};
ghost use Rattle.crossing.specs.Parts.{Holds, Keeps};
ghost use Rattle.lending.specs.Back.{fitted, fit_heads};

use coding::codes;

// A group's mode: any number past 4 is read as 4.
fn bar_code(mode: u64) -> u64
    ensures { result ≡ bar_code (bar_from mode) }
{
    if mode < 4 { mode } else { 4 }
}

// A split's mode: any number past 1 is read as 1.
fn axis_code(mode: u64) -> u64
    ensures { result ≡ axis_code (axis_from mode) }
{
    if mode == 0 { 0 } else { 1 }
}

fn fit_head(h: [u64; 8]) -> [u64; 8]
    ensures { result ≡ fitted h }
{
    match h[0] {
        0 => [0; 8],
        1 => [1, 0, h[2], 0, 0, 0, 0, 0],
        2 => [2, bar_code(h[1]), 0, h[3], h[4], 0, 0, 0],
        _ => [3, axis_code(h[1]), 0, 0, h[4], h[5], h[6], 0],
    }
}

// A loop and no `map`, as in `crossing::tidy::tidy_all`.
fn fit_all(heads: &mut [[u64; 8]; 64])
    ensures { heads.new ≡ map fitted heads.old }
{
    for i in 0..64 {
        heads[i] = fit_head(heads[i]);
    }
}

// Where every code is one that calls take, nothing is written.
fn fit(heads: &mut [[u64; 8]; 64])
    ensures { heads.new ≡ fit_heads heads.old }
{
    if codes::codes_ok(heads) {
        return;
    }
    fit_all(heads)
}

// The lent arrays hold the arena that the columns in them show. Ids, shares and minima stay as they are, whatever they are.
pub fn store(root: u64, revision: u64, top: &mut [u64; 2], heads: &mut [[u64; 8]; 64])
    ensures { (xs : List (List ℕ)) (ss ms : List (List Float)) → Holds (arena_from root revision heads.old xs ss ms) (lot top.new heads.new xs ss ms) }
{
    fit(heads);
    *top = [root, revision];
}

// The columns as they were lent, kept for a refusal.
#[derive(Clone, Copy)]
pub struct Kept {
    pub heads: [[u64; 8]; 64],
    pub ids: [[u64; 16]; 64],
    pub shares: [[f64; 16]; 64],
    pub minima: [[f64; 16]; 64],
}

// The columns are again as they were kept.
pub fn put_back(
    old: &Kept,
    heads: &mut [[u64; 8]; 64],
    ids: &mut [[u64; 16]; 64],
    shares: &mut [[f64; 16]; 64],
    minima: &mut [[f64; 16]; 64],
)
    ensures { (heads.new ≡ old.now.heads) × (ids.new ≡ old.now.ids) × (shares.new ≡ old.now.shares) × (minima.new ≡ old.now.minima) }
{
    *heads = old.heads;
    *ids = old.ids;
    *shares = old.shares;
    *minima = old.minima;
}

// As `store` does, where the answer's number is 0. A refusal puts the columns back as they were kept, and root and revision were not touched.
pub fn keep_columns(
    number: u64,
    root: u64,
    revision: u64,
    old: &Kept,
    top: &mut [u64; 2],
    heads: &mut [[u64; 8]; 64],
    ids: &mut [[u64; 16]; 64],
    shares: &mut [[f64; 16]; 64],
    minima: &mut [[f64; 16]; 64],
)
    ensures { Keeps number (arena_from root revision heads.old ids.old shares.old minima.old) (lot top.old old.now.heads old.now.ids old.now.shares old.now.minima) (lot top.new heads.new ids.new shares.new minima.new) }
{
    if number != 0 {
        put_back(old, heads, ids, shares, minima);
        return;
    }
    store(root, revision, top, heads)
}
