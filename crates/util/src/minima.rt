// Minima of a split's children: the Rust's SplitConstraints.
// Kept: no type says that a length is at most 16: lists with one over 16 come in, and the clause of `repair::whole::repair` speaks of them.
ghost use Rattle.std.specs.Prelude.{◌≡◌, ◌≤◌, ◌<◌, take};
ghost use Rattle.rules.specs.Minima.{fix_minimum, aligned_constraints, compact_constraints, least_of, min_major, split_min_major};
ghost use Rattle.rules.specs.Tree as Tree;
ghost use Rattle.lists.specs.Exact.{IsReals};
ghost use Rattle.util.specs.Entries.{least_at};

use rules::model::Reals;

// A minimum as aligned_constraints keeps it; minus zero becomes zero (document 01's own).
#[tactic(auto, unfolding(rules::specs::Minima::fix_minimum))]
pub fn fix_minimum(minimum: f64) -> f64
    ensures { result ≡ fix_minimum minimum }
{
    if number::minimum_ok(minimum) {
        number::plus_zero(minimum)
    } else {
        0.0
    }
}

// aligned_constraints (tree.rs). A missing minimum is read as zero.
pub fn aligned_constraints(count: usize, minima: Reals) -> Reals
    requires { count ≤ 16 }
    ensures { IsReals result (aligned_constraints count (Tree.reals minima)) }
{
    let mut at = [0.0; 16];
    for j in 0..count {
        let minimum = if j < minima.len { minima.at[j] } else { 0.0 };
        at[j] = fix_minimum(minimum);
    }
    Reals { at, len: count }
}

// How many are left when trailing zeros are cut.
fn kept(minima: Reals) -> usize
    requires { minima.len ≤ 16 }
    ensures { (result ≤ minima.len) × (take result (Tree.reals minima) ≡ compact_constraints (Tree.reals minima)) }
{
    for n in (0..minima.len).rev() {
        if minima.at[n] != 0.0 {
            return n + 1;
        }
    }
    0
}

// compact_constraints (tree.rs)
pub fn compact_constraints(minima: Reals) -> Reals
    requires { minima.len ≤ 16 }
    ensures { IsReals result (compact_constraints (Tree.reals minima)) }
{
    let n = kept(minima);
    lists::first(minima, n)
}

// A child's minimum along the axis: the larger of the default and its own, where that is good.
pub fn least(fallback: f64, minimum: f64) -> f64
    ensures { result ≡ least_of fallback minimum }
{
    let plain = number::plus_zero(fallback);
    if number::minimum_ok(minimum) {
        number::larger(plain, number::plus_zero(minimum))
    } else {
        plain
    }
}

// The closure of split_min_major: the minimum of the child at j.
fn least_at(minima: Reals, fallback: f64, j: usize) -> f64
    requires { minima.len ≤ 16 }
    ensures { result ≡ least_at (Tree.reals minima) fallback j }
{
    if j < minima.len {
        least(fallback, minima.at[j])
    } else {
        number::plus_zero(fallback)
    }
}

// split_min_major, where the default is good.
fn min_major(count: usize, minima: Reals, fallback: f64) -> Reals
    requires { (count ≤ 16) × (minima.len ≤ 16) }
    ensures { IsReals result (min_major count (Tree.reals minima) fallback) }
{
    let mut at = [0.0; 16];
    for j in 0..count {
        at[j] = least_at(minima, fallback, j);
    }
    Reals { at, len: count }
}

// split_min_major
#[tactic(auto, unfolding(rules::specs::Minima::split_min_major))]
pub fn split_min_major(count: usize, minima: Reals, fallback: f64) -> Reals
    requires { (count ≤ 16) × (minima.len ≤ 16) }
    ensures { IsReals result (split_min_major count (Tree.reals minima) fallback) }
{
    if number::minimum_ok(fallback) {
        min_major(count, minima, fallback)
    } else {
        lists::repeat(count, 0.0)
    }
}
