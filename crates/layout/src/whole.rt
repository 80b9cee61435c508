// The whole of a layout over lent arrays: the Rust's layout.
// Kept: the four columns are four parameters (why: columns/src/lib.rt).
ghost use Rattle.std.specs.Prelude.{◌≡◌, Bool};
ghost use Rattle.rules.specs.Tree.{view};
ghost use Rattle.rules.specs.Sound.{sound};
ghost use Rattle.rules.specs.Frame.{layout_items};
ghost use Rattle.rules.specs.Refusals as Answers;
ghost use Rattle.columns.specs.Shown.{arena_from, Plain};
ghost use Rattle.streaming.specs.Stream as Streams;
ghost use Rattle.layout.specs.Whole.{LaysOut};

use crate::LaidOut;
use laying::tiles;
use placing::input;
use rules::frame::LayoutInput;
use rules::model::TileTree;
use rules::refusal::{Answer, Refusal};

// The walk, from the root of a sound arena.
fn place(
    root: u64,
    input: LayoutInput,
    heads: &[[u64; 8]; 64],
    ids: &[[u64; 16]; 64],
    shares: &[[f64; 16]; 64],
    minima: &[[f64; 16]; 64],
    items: &mut [[u64; 5]; 2304],
    rects: &mut [[f64; 4]; 2304],
) -> usize
    requires plain { Plain heads.now ids.now shares.now minima.now }
    requires sound { sound (arena_from root 0 heads.now ids.now shares.now minima.now) ≡ Bool.true }
    ensures { Streams.stream items.new rects.new result ≡ Streams.push_all (layout_items (arena_from root 0 heads.now ids.now shares.now minima.now) input) (Streams.stream items.old rects.old 0) }
{
    settling::lone::root_row(ids, root);
    tiles::layout_tile(
        heads,
        ids,
        shares,
        minima,
        items,
        rects,
        0,
        root,
        input.bounds,
        input,
        64,
    )
}

fn refused(revision: u64, e: Refusal) -> LaidOut
    ensures { (result.answer ≡ Answers.Refused e) × (result.revision ≡ revision) × (result.len ≡ 0) }
{
    LaidOut {
        answer: Err(e),
        revision,
        len: 0,
    }
}

// Lays out the arena that columns show into lent arrays. Of a sound one and a good input the first `len` entries are the frame's items; what stands past
// them is as it was. A refusal leaves the arrays as they were.
pub fn layout_columns(
    root: u64,
    revision: u64,
    input: LayoutInput,
    heads: &[[u64; 8]; 64],
    ids: &[[u64; 16]; 64],
    shares: &[[f64; 16]; 64],
    minima: &[[f64; 16]; 64],
    items: &mut [[u64; 5]; 2304],
    rects: &mut [[f64; 4]; 2304],
) -> LaidOut
    requires { Plain heads.now ids.now shares.now minima.now }
    ensures { LaysOut (arena_from root revision heads.now ids.now shares.now minima.now) input items.old rects.old items.new rects.new result }
{
    if !repair::whole::sound_columns(root, heads, ids, shares, minima) {
        return refused(revision, Refusal::NotSound);
    }
    if !input::input_ok(input) {
        return refused(revision, Refusal::BadInput);
    }
    let plain = input::plus_input(input);
    let len = place(root, plain, heads, ids, shares, minima, items, rects);
    LaidOut {
        answer: Ok(()),
        revision,
        len,
    }
}

// The same of any tree.
pub fn layout_into(
    t: TileTree,
    input: LayoutInput,
    items: &mut [[u64; 5]; 2304],
    rects: &mut [[f64; 4]; 2304],
) -> LaidOut
    ensures { LaysOut (view t) input items.old rects.old items.new rects.new result }
{
    let mut heads = [[0u64; 8]; 64];
    let mut ids = [[0u64; 16]; 64];
    let mut shares = [[0.0f64; 16]; 64];
    let mut minima = [[0.0f64; 16]; 64];
    columns::unpack::unpack(t.slots, &mut heads, &mut ids, &mut shares, &mut minima);
    layout_columns(
        t.root.slot,
        t.revision,
        input,
        &heads,
        &ids,
        &shares,
        &minima,
        items,
        rects,
    )
}
