// The public calls for C and Rust: document 01's calls over lent arrays of numbers. None has a precondition.
// An arena is `top` (root, revision) and the four columns of the crate columns. Each call returns document 01's number, 0 where it is accepted, and writes
// `out`: the two details, and a count (actions, items of a frame, lengths) with what stands beside it. A number that is no kind, mode, axis, placement or
// operation is refused with 5, and then nothing is written.
// Kept: the four columns are four parameters (why: columns/src/lib.rt).
#![tactic(auto)]

ghost use Rattle.std.specs.Prelude.{◌≡◌, true, ℕ};
ghost use Rattle.rules.specs.Sound.{sound};
ghost use Rattle.rules.specs.Solver.{solve};
ghost use Rattle.columns.specs.Shown.{arena_from, Plain};
ghost use Rattle.coding.specs.Lent.{lot, lent, codes_ok, reals_of};
ghost use Rattle.tiling_c.specs.Calls.{Builds, Repairs, sound_code, Applies, Lays, LaysInto, Solves};

use coding::{codes, operation};
use columns::unpack;
use crossing::{actions, tidy, told};
use docking::AppliedIn;
use lending::back::{self, Kept};
use rules::frame::LayoutInput;

// What a number that names nothing is answered with: document 01's 'bad input'.
// Kept: C reads a number.
const BAD_INPUT: u64 = 5;

// A tree from a spec table. A refused one writes the lone empty root.
#[unsafe(no_mangle)]
pub extern "C" fn tiling_from_spec(
    bytes: &[u8],
    top: &mut [u64; 2],
    heads: &mut [[u64; 8]; 64],
    ids: &mut [[u64; 16]; 64],
    shares: &mut [[f64; 16]; 64],
    minima: &mut [[f64; 16]; 64],
    out: &mut [u64; 4],
) -> u64
    ensures { Builds bytes.now (lot top.new heads.new ids.new shares.new minima.new) out.new result }
{
    *heads = [[0; 8]; 64];
    *ids = [[0; 16]; 64];
    *shares = [[0.0; 16]; 64];
    *minima = [[0.0; 16]; 64];
    let r = spec::whole::spec_into(bytes, heads, ids, shares, minima);
    back::store(r.root, 0, top, heads);
    told::tell(r.answer, 0, 0, out)
}

// An arena made sound, and its actions: three numbers each, kind, tile and pane. A refused one is left as it was.
#[unsafe(no_mangle)]
pub extern "C" fn tiling_repair(
    top: &mut [u64; 2],
    heads: &mut [[u64; 8]; 64],
    ids: &mut [[u64; 16]; 64],
    shares: &mut [[f64; 16]; 64],
    minima: &mut [[f64; 16]; 64],
    acts: &mut [[u64; 3]; 1300],
    out: &mut [u64; 4],
) -> u64
    ensures { Repairs (lot top.old heads.old ids.old shares.old minima.old) acts.old out.old (lot top.new heads.new ids.new shares.new minima.new) acts.new out.new result }
{
    if !codes::codes_ok(heads) {
        return BAD_INPUT;
    }
    let old = Kept {
        heads: *heads,
        ids: *ids,
        shares: *shares,
        minima: *minima,
    };
    tidy::tidy_lent(heads);
    let mut list = [[0; 3]; 1300];
    let [root, revision] = *top;
    match settling::settle::repair_columns(root, heads, ids, shares, minima, &mut list) {
        Ok(done) => {
            actions::write(&list, done.count, acts);
            back::store(done.root, revision, top, heads);
            told::tell(Ok(()), done.count as u64, 0, out)
        }
        Err(e) => {
            back::put_back(&old, heads, ids, shares, minima);
            told::tell(Err(e), 0, 0, out)
        }
    }
}

// Soundness of columns whose heads are fit to be read, as a number.
fn sound_number(
    root: u64,
    heads: &[[u64; 8]; 64],
    ids: &[[u64; 16]; 64],
    shares: &[[f64; 16]; 64],
    minima: &[[f64; 16]; 64],
) -> u64
    requires { Plain heads.now ids.now shares.now minima.now }
    ensures { (v : ℕ) → result ≡ sound_code true (sound (arena_from root v heads.now ids.now shares.now minima.now)) }
{
    if repair::whole::sound_columns(root, heads, ids, shares, minima) {
        0
    } else {
        4
    }
}

// 0 where the arena is sound, 4 where it is not.
#[unsafe(no_mangle)]
pub extern "C" fn tiling_is_sound(
    top: &[u64; 2],
    heads: &[[u64; 8]; 64],
    ids: &[[u64; 16]; 64],
    shares: &[[f64; 16]; 64],
    minima: &[[f64; 16]; 64],
) -> u64
    ensures { result ≡ sound_code (codes_ok heads.now) (sound (lent (lot top.now heads.now ids.now shares.now minima.now))) }
{
    if !codes::codes_ok(heads) {
        return BAD_INPUT;
    }
    let root = top[0];
    if unpack::heads_over(heads) {
        let plain = tidy::tidy(heads);
        return sound_number(root, &plain, ids, shares, minima);
    }
    sound_number(root, heads, ids, shares, minima)
}

// One change. A refused one leaves the arena as it was.
#[unsafe(no_mangle)]
pub extern "C" fn tiling_apply(
    top: &mut [u64; 2],
    heads: &mut [[u64; 8]; 64],
    ids: &mut [[u64; 16]; 64],
    shares: &mut [[f64; 16]; 64],
    minima: &mut [[f64; 16]; 64],
    words: &[u64; 8],
    fraction: f64,
    out: &mut [u64; 4],
) -> u64
    ensures { Applies (lot top.old heads.old ids.old shares.old minima.old) words.now fraction out.old (lot top.new heads.new ids.new shares.new minima.new) out.new result }
{
    if !codes::codes_ok(heads) || !codes::op_ok(words) {
        return BAD_INPUT;
    }
    let op = operation::op_of(words, fraction);
    let old = Kept {
        heads: *heads,
        ids: *ids,
        shares: *shares,
        minima: *minima,
    };
    tidy::tidy_lent(heads);
    let [root, revision] = *top;
    let done = ops::whole::apply_columns(root, revision, op, heads, ids, shares, minima);
    let answer = ops::finish::answer_of(done);
    let n = told::tell(answer, 0, 0, out);
    let same = AppliedIn { root, revision };
    let end = done.unwrap_or(None).unwrap_or(same);
    back::keep_columns(
        n,
        end.root,
        end.revision,
        &old,
        top,
        heads,
        ids,
        shares,
        minima,
    );
    n
}

// A layout of columns whose heads are fit to be read, and what is told of it.
fn lay(
    root: u64,
    revision: u64,
    given: LayoutInput,
    heads: &[[u64; 8]; 64],
    ids: &[[u64; 16]; 64],
    shares: &[[f64; 16]; 64],
    minima: &[[f64; 16]; 64],
    items: &mut [[u64; 5]; 2304],
    rects: &mut [[f64; 4]; 2304],
    out: &mut [u64; 4],
) -> u64
    requires { Plain heads.now ids.now shares.now minima.now }
    ensures { Lays (arena_from root revision heads.now ids.now shares.now minima.now) given items.old rects.old items.new rects.new out.new result }
{
    let d = layout::whole::layout_columns(
        root, revision, given, heads, ids, shares, minima, items, rects,
    );
    told::tell(d.answer, d.len as u64, d.revision, out)
}

// The frame of an arena as one stream: `out` has the number of its items. A refusal leaves the stream as it was.
#[unsafe(no_mangle)]
pub extern "C" fn tiling_layout_into(
    top: &[u64; 2],
    heads: &[[u64; 8]; 64],
    ids: &[[u64; 16]; 64],
    shares: &[[f64; 16]; 64],
    minima: &[[f64; 16]; 64],
    input: &[f64; 8],
    items: &mut [[u64; 5]; 2304],
    rects: &mut [[f64; 4]; 2304],
    out: &mut [u64; 4],
) -> u64
    ensures { LaysInto (lot top.now heads.now ids.now shares.now minima.now) input.now items.old rects.old out.old items.new rects.new out.new result }
{
    if !codes::codes_ok(heads) {
        return BAD_INPUT;
    }
    let [root, revision] = *top;
    let given = operation::input_of(input);
    if unpack::heads_over(heads) {
        let plain = tidy::tidy(heads);
        return lay(
            root, revision, given, &plain, ids, shares, minima, items, rects, out,
        );
    }
    lay(
        root, revision, given, heads, ids, shares, minima, items, rects, out,
    )
}

// The lengths of a split's children: `out` has their number and the passes. A refusal leaves the lengths as they were.
#[unsafe(no_mangle)]
pub extern "C" fn tiling_solve(
    total: f64,
    shares: &[f64; 16],
    share_count: u64,
    minima: &[f64; 16],
    minimum_count: u64,
    lengths: &mut [f64; 16],
    out: &mut [u64; 4],
) -> u64
    ensures { Solves (solve total (reals_of shares.now share_count) (reals_of minima.now minimum_count)) lengths.old lengths.new out.new result }
{
    let d = solver::solve_into(
        total,
        shares,
        share_count as usize,
        minima,
        minimum_count as usize,
        lengths,
    );
    told::tell(d.answer, d.len as u64, d.passes, out)
}
