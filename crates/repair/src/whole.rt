// The whole of a repair of a tree: the Rust's repair; and soundness.
// Kept: the four columns are four parameters (why: columns/src/lib.rt).
ghost use Rattle.std.specs.Prelude.{◌≡◌, ℕ};
ghost use Rattle.rules.specs.Tree.{view};
ghost use Rattle.rules.specs.Repair as Rule;
ghost use Rattle.rules.specs.Sound.{sound};
ghost use Rattle.forest.specs.Still.{is_still};
ghost use Rattle.rules.specs.Refusals as Answers;
ghost use Rattle.columns.specs.Shown.{arena_from, Plain};
ghost use Rattle.repair.specs.Whole.{repaired, Returns, Packs};
ghost use Rattle.settling.specs.Settle.{Left};

use crate::Repairing;
use columns::{pack, unpack};
use noting::listing;
use rules::model::{TileId, TileTree};
use rules::refusal::Refusal;
use settling::{Settled, lone, settle};

fn refused(t: TileTree, e: Refusal) -> Repairing
    ensures { Returns t e result }
{
    let actions = listing::no_report();
    Repairing {
        answer: Err(e),
        tree: t,
        actions,
    }
}

// What a repair of a tree's columns came to, as a tree and a report. A refused tree is the tree given.
fn packed(
    t: TileTree,
    s: Result<Settled, Refusal>,
    heads: &[[u64; 8]; 64],
    ids: &[[u64; 16]; 64],
    shares: &[[f64; 16]; 64],
    minima: &[[f64; 16]; 64],
    acts: &[[u64; 3]; 1300],
) -> Repairing
    requires { Left heads.now ids.now shares.now minima.now s }
    ensures { Packs t s heads.now ids.now shares.now minima.now acts.now result }
{
    match s {
        Ok(s) => {
            let slots = pack::pack(heads, ids, shares, minima);
            let actions = listing::report(acts, s.count);
            let root = TileId { slot: s.root };
            let tree = TileTree {
                root,
                revision: t.revision,
                slots,
            };
            Repairing {
                answer: Ok(()),
                tree,
                actions,
            }
        }
        Err(e) => refused(t, e),
    }
}

// Repairs any arena. A list given too long is refused before anything else.
pub fn repair(t: TileTree) -> Repairing
    ensures { (repaired result ≡ Rule.repair (view t)) × ((e : Refusal) → result.answer ≡ Answers.Refused e → result.tree ≡ t) }
{
    let slots = t.slots;
    let top = t.root;
    let mut heads = [[0u64; 8]; 64];
    let mut ids = [[0u64; 16]; 64];
    let mut shares = [[0.0f64; 16]; 64];
    let mut minima = [[0.0f64; 16]; 64];
    let mut acts = [[0u64; 3]; 1300];
    unpack::unpack(slots, &mut heads, &mut ids, &mut shares, &mut minima);
    let s = settle::repair_columns(
        top.slot,
        &mut heads,
        &mut ids,
        &mut shares,
        &mut minima,
        &mut acts,
    );
    packed(t, s, &heads, &ids, &shares, &minima, &acts)
}

// Whether repair would list nothing of the arena that columns show: by a walk that only reads them.
fn is_still(
    root: u64,
    heads: &[[u64; 8]; 64],
    ids: &[[u64; 16]; 64],
    shares: &[[f64; 16]; 64],
    minima: &[[f64; 16]; 64],
) -> bool
    requires { Plain heads.now ids.now shares.now minima.now }
    ensures { (v : ℕ) → result ≡ is_still (Rule.repair (arena_from root v heads.now ids.now shares.now minima.now)) }
{
    if unpack::heads_over(heads) {
        return false;
    }
    calm::whole::calm_columns(root, heads, ids, shares, minima)
}

// Whether repair would leave the arena that columns show as it is, or it is the lone empty root.
pub fn sound_columns(
    root: u64,
    heads: &[[u64; 8]; 64],
    ids: &[[u64; 16]; 64],
    shares: &[[f64; 16]; 64],
    minima: &[[f64; 16]; 64],
) -> bool
    requires { Plain heads.now ids.now shares.now minima.now }
    ensures { (v : ℕ) → result ≡ sound (arena_from root v heads.now ids.now shares.now minima.now) }
{
    if is_still(root, heads, ids, shares, minima) {
        return true;
    }
    lone::lone_empty_root(root, heads, ids, shares, minima)
}

// Whether a tree is sound, as document 01 has it: every operation and every layout asks it first. The Rust has no such call.
pub fn is_sound(t: TileTree) -> bool
    ensures { result ≡ sound (view t) }
{
    let slots = t.slots;
    let top = t.root;
    let mut heads = [[0u64; 8]; 64];
    let mut ids = [[0u64; 16]; 64];
    let mut shares = [[0.0f64; 16]; 64];
    let mut minima = [[0.0f64; 16]; 64];
    unpack::unpack(slots, &mut heads, &mut ids, &mut shares, &mut minima);
    sound_columns(top.slot, &heads, &ids, &shares, &minima)
}
