// The Rust's `from_spec` (tree.rs) whole: the spec's tree, repaired. It is made and repaired in columns, and packed at the end.
// Kept: the four columns are four parameters (why: columns/src/lib.rt).
ghost use Rattle.std.specs.Prelude.{◌≡◌, ◌∷◌, replicate};
ghost use Rattle.rules.specs.Tree.{arena, tile, empty, empty_group};
ghost use Rattle.rules.specs.Spec.{from_spec};
ghost use Rattle.build.specs.Slots.{Bare};
ghost use Rattle.columns.specs.Shown.{arena_from, Plain};
ghost use Rattle.drafting.specs.Draft.{Drafted, DraftedIn, BuiltIn};
ghost use Rattle.spec.specs.Whole.{built_of};

use columns::pack::pack;
use drafting::draft::{Draft, build_into};
use rules::model::{TileId, TileTree};
use rules::refusal::Answer;
use settling::settle::repair_columns;

// What a spec came to in columns, and the root of its tree.
// Kept: a refused one's columns show a tree too, whose root `DraftedIn`, the clause of `spec_into`, speaks of.
#[derive(Clone, Copy)]
pub struct Rooted {
    pub answer: Answer,
    pub root: u64,
}

// A built tree's columns, repaired: what repair refuses is refused as a spec. Its actions are not asked for.
fn mended(
    heads: &mut [[u64; 8]; 64],
    ids: &mut [[u64; 16]; 64],
    shares: &mut [[f64; 16]; 64],
    minima: &mut [[f64; 16]; 64],
) -> Rooted
    requires { Plain heads.old ids.old shares.old minima.old }
    ensures { BuiltIn (built_of (arena_from 0 0 heads.old ids.old shares.old minima.old)) result.answer result.root heads.new ids.new shares.new minima.new }
{
    // A list that has not 1,300 places is silent, as the Rust's sink without a list.
    let mut acts = [[0u64; 3]; 1];
    match repair_columns(0, heads, ids, shares, minima, &mut acts) {
        Ok(s) => Rooted {
            answer: Ok(()),
            root: s.root,
        },
        Err(e) => Rooted {
            answer: Err(e),
            root: 0,
        },
    }
}

// From any bytes, into columns that show no tile. A refused one may leave them half done.
fn made_into(
    b: &[u8],
    heads: &mut [[u64; 8]; 64],
    ids: &mut [[u64; 16]; 64],
    shares: &mut [[f64; 16]; 64],
    minima: &mut [[f64; 16]; 64],
) -> Rooted
    requires { Bare heads.old ids.old shares.old minima.old }
    ensures { BuiltIn (from_spec b.now) result.answer result.root heads.new ids.new shares.new minima.new }
{
    let answer = build_into(b, heads, ids, shares, minima);
    match answer {
        Ok(()) => mended(heads, ids, shares, minima),
        Err(_) => Rooted { answer, root: 0 },
    }
}

// Columns that show an empty Hidden group in slot 0, and nothing else.
fn lone(
    heads: &mut [[u64; 8]; 64],
    ids: &mut [[u64; 16]; 64],
    shares: &mut [[f64; 16]; 64],
    minima: &mut [[f64; 16]; 64],
)
    ensures { (arena_from 0 0 heads.new ids.new shares.new minima.new ≡ arena (tile 0) 0 (empty_group ∷ replicate 63 empty)) × (Plain heads.new ids.new shares.new minima.new) }
{
    let mut rows = [[0u64; 8]; 64];
    rows[0] = [2u64, 0, 0, 0, 0, 0, 0, 0];
    *heads = rows;
    *ids = [[0u64; 16]; 64];
    *shares = [[0.0f64; 16]; 64];
    *minima = [[0.0f64; 16]; 64];
}

// From any bytes, into columns that show no tile: a repaired tree of revision 0, or a refusal with the lone empty root.
pub fn spec_into(
    b: &[u8],
    heads: &mut [[u64; 8]; 64],
    ids: &mut [[u64; 16]; 64],
    shares: &mut [[f64; 16]; 64],
    minima: &mut [[f64; 16]; 64],
) -> Rooted
    requires { Bare heads.old ids.old shares.old minima.old }
    ensures { DraftedIn result.answer result.root heads.new ids.new shares.new minima.new (from_spec b.now) }
{
    let r = made_into(b, heads, ids, shares, minima);
    let answer = r.answer;
    match answer {
        Ok(()) => r,
        Err(_) => {
            lone(heads, ids, shares, minima);
            Rooted { answer, root: 0 }
        }
    }
}

// The same as a tree by value.
pub fn from_spec(b: &[u8]) -> Draft
    ensures { Drafted result.answer result.tree (from_spec b.now) }
{
    let mut heads = [[0u64; 8]; 64];
    let mut ids = [[0u64; 16]; 64];
    let mut shares = [[0.0f64; 16]; 64];
    let mut minima = [[0.0f64; 16]; 64];
    let r = spec_into(b, &mut heads, &mut ids, &mut shares, &mut minima);
    let slots = pack(&heads, &ids, &shares, &minima);
    let answer = r.answer;
    let root = TileId { slot: r.root };
    let tree = TileTree {
        root,
        revision: 0,
        slots,
    };
    Draft { answer, tree }
}
