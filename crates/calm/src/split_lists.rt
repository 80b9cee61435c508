// A split's lists, read where they stand: whether repair would leave them as they are, by a test of each entry alone.
ghost use Rattle.std.specs.Prelude.{◌≡◌, [], ◌≤◌, ◌<◌, take, get_or};
ghost use Rattle.rules.specs.Numbers.{zero-f};
ghost use Rattle.rules.specs.Shares.{repaired_shares, eq_reals};
ghost use Rattle.rules.specs.Minima.{aligned_constraints, compact_constraints};
ghost use Rattle.columns.specs.Columns.{Slim};
ghost use Rattle.calm.specs.Reads.{lists_calm};

use loops::tests;

// Whether repaired_shares leaves n shares of as many children as count: one for each child, and each is good.
fn shares_calm(row: &[f64; 16], n: usize, count: usize) -> bool
    requires { n ≤ 16 }
    ensures { result ≡ eq_reals (repaired_shares count (take n row.now)) (take n row.now) }
{
    if n != count {
        return false;
    }
    tests::shares_ok(row, n)
}

// Whether aligned_constraints and compact_constraints leave n minima: no more than the children, each is good, and the last is not
// zero, which would be cut.
fn minima_calm(row: &[f64; 16], n: usize, count: usize) -> bool
    requires { n ≤ 16 }
    ensures { result ≡ eq_reals (compact_constraints (aligned_constraints count (take n row.now))) (take n row.now) }
{
    if n == 0 {
        return true;
    }
    if count < n {
        return false;
    }
    if row[n - 1] == 0.0 {
        return false;
    }
    tests::minima_ok(row, n)
}

// Whether a split's lists need no mending, and it has two children or more.
pub fn lists_calm(
    heads: &[[u64; 8]; 64],
    shares: &[[f64; 16]; 64],
    minima: &[[f64; 16]; 64],
    i: usize,
) -> bool
    requires inside { i < 64 }
    requires slim { Slim (get_or heads.now i []) }
    ensures { result ≡ lists_calm (get_or (get_or heads.now i []) 4 0) (take (get_or (get_or heads.now i []) 5 0) (get_or shares.now i [])) (take (get_or (get_or heads.now i []) 6 0) (get_or minima.now i [])) }
{
    let count = heads[i][4] as usize;
    if count < 2 {
        return false;
    }
    let n = heads[i][5] as usize;
    if !shares_calm(&shares[i], n, count) {
        return false;
    }
    let least = heads[i][6] as usize;
    minima_calm(&minima[i], least, count)
}

// The minimum at a place, zero past the first n.
pub fn minimum_at(row: &[f64; 16], n: usize, j: usize) -> f64
    requires { n ≤ 16 }
    ensures { result ≡ get_or (take n row.now) j zero-f }
{
    if n <= j {
        return 0.0;
    }
    row[j]
}
