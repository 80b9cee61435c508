// A split's lists: loaded from its slot and mended, by value; the children that are kept placed one by one or melted in, in three lent arrays.
// Kept: the four columns are four parameters (why: columns/src/lib.rt).
ghost use Rattle.std.specs.Prelude.{◌≡◌, Bool, List, [], ◌∷◌, map, ℕ, ◌+◌, ◌≤◌, ◌<◌, get_or, set, is_none, unwrap_or, Float};
ghost use Rattle.rules.specs.Repair.{entry, melts, scaled};
ghost use Rattle.rules.specs.Tree.{tile, same_axis};
ghost use Rattle.columns.specs.Columns.{Slim, axis_from, node_from};
ghost use Rattle.sifting.specs.Walked.{Even, entries_of};
ghost use Rattle.melting.specs.Splits.{Loaded, Mends, kids_in, Grown, mended_of, Fits};

use crate::Tally;
use rules::model::{Ids, Reals};
use sifting::Kids;
use util::{minima as constraints, shares as util_shares};

// The lists that stand in a slot.
pub fn load(
    heads: &[[u64; 8]; 64],
    ids: &[[u64; 16]; 64],
    shares: &[[f64; 16]; 64],
    minima: &[[f64; 16]; 64],
    i: usize,
) -> Kids
    requires inside { i < 64 }
    requires slim { Slim (get_or heads.now i []) }
    ensures { Loaded (get_or heads.now i []) (get_or ids.now i []) (get_or shares.now i []) (get_or minima.now i []) result }
{
    let h = heads[i];
    Kids {
        children: Ids {
            at: ids[i],
            len: h[4] as usize,
        },
        shares: Reals {
            at: shares[i],
            len: h[5] as usize,
        },
        minima: Reals {
            at: minima[i],
            len: h[6] as usize,
        },
        moved: false,
    }
}

// repaired_shares and aligned_constraints of a split's lists.
pub fn mended(k: Kids) -> Kids
    requires children { k.children.len ≤ 16 }
    requires shares { k.shares.len ≤ 16 }
    requires minima { k.minima.len ≤ 16 }
    ensures { Mends k result }
{
    let n = k.children.len;
    Kids {
        children: k.children,
        shares: util_shares::repaired_shares(n, k.shares),
        minima: constraints::aligned_constraints(n, k.minima),
        moved: false,
    }
}

// `children.push`, `shares.push` and `constraints.push`, in place, behind the n that are there.
fn push3(
    cs: &mut [u64; 16],
    ss: &mut [f64; 16],
    ms: &mut [f64; 16],
    n: usize,
    child: u64,
    share: f64,
    minimum: f64,
)
    requires { n < 16 }
    ensures { (cs.new ≡ set cs.old n child) × (ss.new ≡ set ss.old n share) × (ms.new ≡ set ms.old n minimum) }
{
    cs[n] = child;
    ss[n] = share;
    ms[n] = minimum;
}

// The children of a split that is melted in, each share multiplied by its own, behind the n that are there.
fn melt_all(
    cs: &mut [u64; 16],
    ss: &mut [f64; 16],
    ms: &mut [f64; 16],
    n: usize,
    share: f64,
    sub: Kids,
)
    requires even { Even sub }
    requires room { n + sub.children.len ≤ 16 }
    ensures { Grown (map (scaled share) (entries_of sub)) (kids_in cs.old ss.old ms.old n Bool.true) (kids_in cs.new ss.new ms.new (n + sub.children.len) Bool.true) }
{
    let children = sub.children;
    let shares = sub.shares;
    let minima = sub.minima;
    for j in 0..children.len {
        let own = shares.at[j];
        push3(cs, ss, ms, n + j, children.at[j], share * own, minima.at[j]);
    }
}

// Whether two modes are the same axis: 0 is horizontal, any other vertical.
// Kept: two numbers of heads, as C lends them, and `==` of what `modes::axis_of` makes of them is longer.
fn same_axis(a: u64, b: u64) -> bool
    ensures { result ≡ same_axis (axis_from a) (axis_from b) }
{
    (a == 0) == (b == 0)
}

// Whether what stands in a slot is a split of the same axis, where the child's own minimum is zero.
pub fn is_meltable(h: [u64; 8], mode: u64, minimum: f64) -> bool
    ensures { (xs : List ℕ) (ss ms : List Float) → result ≡ melts (axis_from mode) minimum (node_from h xs ss ms) }
{
    2 < h[0] && same_axis(h[1], mode) && minimum == 0.0
}

// The split that is melted in; none, where its children are too many.
pub fn melt_kids(
    cs: &mut [u64; 16],
    ss: &mut [f64; 16],
    ms: &mut [f64; 16],
    t: Tally,
    share: f64,
    given: Kids,
) -> Option<Tally>
    requires tally { t.len ≤ 16 }
    requires children { given.children.len ≤ 16 }
    requires shares { given.shares.len ≤ 16 }
    requires minima { given.minima.len ≤ 16 }
    ensures { let u = unwrap_or result t in Fits (map (scaled share) (mended_of given)) Bool.true (kids_in cs.old ss.old ms.old t.len t.moved) (kids_in cs.new ss.new ms.new u.len u.moved) (is_none result) }
{
    let sub = mended(given);
    let n = t.len;
    let m = sub.children.len;
    if 16 < n + m {
        return None;
    }
    melt_all(cs, ss, ms, n, share, sub);
    Some(Tally {
        len: n + m,
        moved: true,
    })
}

// A child as it is; none, where there is no room.
pub fn place_one(
    cs: &mut [u64; 16],
    ss: &mut [f64; 16],
    ms: &mut [f64; 16],
    t: Tally,
    id: u64,
    share: f64,
    minimum: f64,
) -> Option<Tally>
    requires { t.len ≤ 16 }
    ensures { let u = unwrap_or result t in Fits (entry (tile id) share minimum ∷ []) t.moved (kids_in cs.old ss.old ms.old t.len t.moved) (kids_in cs.new ss.new ms.new u.len u.moved) (is_none result) }
{
    let n = t.len;
    if 16 <= n {
        return None;
    }
    push3(cs, ss, ms, n, id, share, minimum);
    Some(Tally { len: n + 1, ..t })
}
